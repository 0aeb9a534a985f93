//! The routes of the paths that are asked for.
ghost use Rattle.std.specs.Prelude.{◌≡◌, ◌++◌, IfOk, OnOk};
ghost use Rattle.std.specs.Option.{option_map, option_to_list};
ghost use Rattle.std.specs.Result.{result_err};
ghost use Rattle.eon_model.specs.declared.Part.TheVariants.{Backup};
ghost use Rattle.eon_model.specs.Step.{asked, fibres_numbered};
ghost use Rattle.command_text.specs.Told.{told_path, told_backs};
ghost use Rattle.reply_text.specs.Replied.{reply_told};
ghost use Rattle.plan_core.specs.Placing as placing;

use crate::demand::{AskedPath, AskedPaths, Demand, node_numbered};
use command_text::{BackWords, FibreNames};
use eon_model::Part;
use net_graph::{Net, Route};
use reply_text::Reply;
use std::alloc::{AllocError, Global};

// The numbers of the fibres of these names.
fn fibre_numbers(alloc: Global, net: &Net, names: &FibreNames) -> Result<Vec<u8>, AllocError>
    ensures { IfOk result (λ numbers. numbers.items ≡ fibres_numbered net.now names.now) }
{
    names
        .iter()
        .filter_map(|name| net.fibre_of(&name))
        .collect(alloc)
}

// The path that is asked for; None where its fibres are no route between the ends.
fn asked_path(
    alloc: Global,
    net: &Net,
    demand: &Demand,
    part: Part,
    names: &FibreNames,
    n: i16,
) -> Result<Option<AskedPath>, AllocError>
    ensures { IfOk result (λ path. path ≡ placing.path_if_walks net.now demand.now (asked net.now part (record { fibres = names.now; n = n }))) }
{
    let numbers = fibre_numbers(alloc, net, names)?;
    let src = node_numbered(net, &demand.src);
    let dst = node_numbered(net, &demand.dst);
    match Route::make(alloc, net, src, dst, &numbers)? {
        Some(route) => Ok(Some(AskedPath { part, route, n })),
        None => Ok(None),
    }
}

// The backup path that is asked for; None where its fibres are no route between the ends.
fn asked_back(
    alloc: Global,
    net: &Net,
    demand: &Demand,
    words: &BackWords,
) -> Result<Option<AskedPath>, AllocError>
    ensures { IfOk result (λ path. path ≡ placing.path_if_walks net.now demand.now (asked net.now Backup (told_path words.now))) }
{
    asked_path(alloc, net, demand, Part::Backup, &words.fibres, words.n)
}

/// The paths that are asked for, or the reply that the first one that is no route has.
pub fn asked_paths(
    alloc: Global,
    net: &Net,
    demand: &Demand,
    work: &FibreNames,
    n: i16,
    back: &Option<BackWords>,
) -> Result<Result<AskedPaths, Reply>, AllocError>
    ensures fault { IfOk result (λ r. option_map reply_told (result_err r) ≡ placing.path_fault net.now demand.now (placing.paths_asked net.now (record { fibres = work.now; n = n }) (told_backs back.now))) }
    ensures paths { IfOk result (λ r. IfOk r (λ paths. paths ≡ placing.paths_asked net.now (record { fibres = work.now; n = n }) (told_backs back.now))) }
{
    let Some(work) = asked_path(alloc, net, demand, Part::Work, work, n)? else {
        return Ok(Err(Reply::Path { part: Part::Work }));
    };
    let Some(words) = back else {
        return Ok(Ok(AskedPaths { work, back: None }));
    };
    match asked_back(alloc, net, demand, words)? {
        Some(path) => Ok(Ok(AskedPaths {
            work,
            back: Some(path),
        })),
        None => Ok(Err(Reply::Path { part: Part::Backup })),
    }
}
