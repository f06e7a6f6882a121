//! What given nets decide: three values, at many moments at once.

use crate::fanin::Fanin;
use crate::tables::{flag, put};
use crate::view::Desk;
use bs_net::{Gate, Kind};

/// The bit of an input that decides a gate by itself, if there is one.
pub(crate) fn deciding_bit(kind: Kind) -> Option<bool> {
    match kind {
        Kind::And => Some(false),
        Kind::Nand => Some(false),
        Kind::Or => Some(true),
        Kind::Nor => Some(true),
        _ => None,
    }
}

/// The moments at which the inputs decide a gate: all of them are known, or one that decides it by itself.
fn gate_known(desk: &Desk<'_>, gate: &Gate) -> u64 {
    let decides = deciding_bit(gate.kind);
    let mut all = desk.cycles;
    let mut one = 0;
    'inputs: for input in gate.ins.slice() {
        let word = desk.known_at(*input);
        all = all & word;
        if let Some(bit) = decides {
            one = one | (word & desk.with_bit(*input, bit));
        }
    }
    all | one
}

/// Notes at which moments the inputs decide some gates, one after another.
pub(crate) fn know_gates(desk: &mut Desk<'_>, gates: &[usize]) {
    let scene = desk.site.scene;
    'gates: for place in gates {
        if let Some(gate) = scene.gate(*place) {
            let word = gate_known(desk, gate);
            put(&mut desk.known, gate.out.0 as usize, word);
        }
    }
}

/// Notes at which moments given nets decide each net of a fan-in.
pub(crate) fn know_by_given(desk: &mut Desk<'_>, fanin: &Fanin) {
    'leaves: for net in fanin.leaves.as_slice() {
        let given = flag(desk.given.as_slice(), *net);
        let word = if given { desk.cycles } else { 0 };
        put(&mut desk.known, net.0 as usize, word);
    }
    know_gates(desk, fanin.gates.as_slice());
}

/// Notes which nets of the fan-in the trace decides at a cycle. At the last moment no data input is told.
pub(crate) fn know_by_trace(desk: &mut Desk<'_>) {
    let site = desk.site;
    'leaves: for net in site.fanin.leaves.as_slice() {
        let told = site.scene.moments.bit(*net, desk.cycle).is_some();
        let word = if told { desk.cycles } else { 0 };
        put(&mut desk.known, net.0 as usize, word);
    }
    know_gates(desk, site.fanin.gates.as_slice());
}

/// Notes that a pass over the block needs those of these gates that are known.
pub(crate) fn note_gates(desk: &mut Desk<'_>, gates: &[usize]) {
    let scene = desk.site.scene;
    'gates: for place in gates {
        if let Some(gate) = scene.gate(*place) {
            if desk.known_at(gate.out) != 0 {
                put(&mut desk.used, gate.out.0 as usize, true);
            }
        }
    }
}
