//! The names of a question.
ghost use Rattle.std.specs.Prelude.{◌≡◌, ◌∷◌, [], not, find, IfOk};
ghost use Rattle.eon_model.specs.Step as step;
ghost use Rattle.eon_model.specs.Step.{is_node, is_fibre, fibres_numbered};
ghost use Rattle.room_lines.specs.Asking.{first_unknown};

use command_text::FibreNames;
use eon_base::name::Name;
use net_graph::Net;
use std::alloc::{AllocError, Global};

// The first of the two ends that is no node.
fn unknown_end(net: &Net, src: &Name, dst: &Name) -> Option<Name>
    ensures { result ≡ find (λ name. not (is_node net.now name)) (src.now ∷ dst.now ∷ []) }
{
    if net.node_of(src).is_none() {
        return Some(*src);
    }
    if net.node_of(dst).is_none() {
        return Some(*dst);
    }
    None
}

// The first of the names that is no fibre.
fn unknown_fibre(net: &Net, names: &FibreNames) -> Option<Name>
    ensures { result ≡ find (λ name. not (is_fibre net.now name)) names.now }
{
    names.iter().find(|name| net.fibre_of(name).is_none())
}

// The first end that is no node, or else the first name that is no fibre.
pub(crate) fn first_unknown(net: &Net, src: &Name, dst: &Name, names: &FibreNames) -> Option<Name>
    ensures { result ≡ first_unknown net.now src.now dst.now names.now }
{
    match unknown_end(net, src, dst) {
        Some(name) => Some(name),
        None => unknown_fibre(net, names),
    }
}

// The number of the node of this name, and 0 where there is none.
pub(crate) fn node_numbered(net: &Net, name: &Name) -> u8
    ensures { result ≡ step.node_numbered net.now name.now }
{
    net.node_of(name).unwrap_or(0)
}

// The numbers of the fibres of these names.
pub(crate) fn fibre_numbers(
    alloc: Global,
    net: &Net,
    names: &FibreNames,
) -> Result<Vec<u8>, AllocError>
    ensures { IfOk result (λ numbers. numbers.items ≡ fibres_numbered net.now names.now) }
{
    names
        .iter()
        .filter_map(|name| net.fibre_of(&name))
        .collect(alloc)
}
