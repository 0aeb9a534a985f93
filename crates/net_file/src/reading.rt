//! Reading a network text.
ghost use Rattle.std.specs.Prelude.{◌≡◌, ◌⊎◌, None, IfOk, IfErr, OnOk};
ghost use Rattle.eon_model.specs.Legal.{Setup};
ghost use Rattle.eon_model.specs.NetworkText.{IsNetworkTextOf};
ghost use Rattle.eon_model.specs.NetworkFault.{network_fault};
ghost use Rattle.net_file.specs.Told.{IsRefusalOf, refusal_at};

use crate::draft::Draft;
use crate::fault::{LineFault, NetFault, NetRefusal, Why};
use crate::lines::Lines;
use net_setup::NetSetup;
use std::alloc::Global;

// What is told of a line that was not taken.
fn refusal(line: u32, fault: LineFault) -> NetRefusal
    ensures { result ≡ refusal_at line fault }
{
    match fault {
        LineFault::Cause(why) => NetRefusal::Fault(NetFault { line, why }),
        LineFault::Memory => NetRefusal::Memory,
    }
}

/// Reads a network text, line by line. Where it is none, its first line that is wrong is
/// told, with the first cause in the order of `Why`; or `Memory` where memory did not suffice.
pub fn read_net(alloc: Global, bytes: &[u8]) -> Result<NetSetup, NetRefusal>
    ensures ok { IfOk result (λ s. IsNetworkTextOf bytes.now s) }
    ensures fault { IfErr result (λ e. IsRefusalOf bytes.now e) }
    ensures refused { IfErr result (λ e. (e ≡ NetRefusal.Memory) ⊎ ((s : Setup) → IsNetworkTextOf bytes.now s → ⊥)) }
    ensures no_fault { OnOk result (network_fault bytes.now ≡ None) }
{
    let mut lines = Lines::new(bytes);
    let mut draft = Draft::new(alloc);
    let mut number: u32 = 1;
    while let Some(line) = lines.next_line() {
        match draft.take_line(line) {
            Ok(()) => number += 1,
            Err(fault) => return Err(refusal(number, fault)),
        }
    }
    if !draft.has_ended() {
        return Err(refusal(number, LineFault::Cause(Why::Short)));
    }
    if !lines.is_done() {
        return Err(refusal(number, LineFault::Cause(Why::Rest)));
    }
    Ok(draft.finish())
}
