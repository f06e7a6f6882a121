//! The steps of a report, tried by replay.
ghost use Rattle.std.specs.Prelude.{◌≡◌, ◌<◌, ◌+◌, ◌^◌, ◌∷◌, length, option_map, All, IfOk};
ghost use Rattle.std.specs.Option.{option_to_list};
ghost use Rattle.bs_report.specs.Step.{listed, stored_of};
ghost use Rattle.bs_report.specs.Valid.{all_bits_eq, first_of_all, has_state, has_stored, is_right_count, same_hit};
ghost use Rattle.bs_scan.specs.Dump.{signatures_of};
ghost use Rattle.bs_scan.specs.Present.{present_in};
ghost use Rattle.bs_audit.specs.Following.{begin_parts, line_of, IsListed, IsTried, IsWalked};

use crate::candidates::number;
use crate::replay::Replay;
use bs_bits::{Bits, NoMemory};
use bs_chip::Hit;
use bs_report::{Budgets, HitLine, ListEnd, Part, Report, Step};
use bs_scan::{Dump, Seen};
use std::alloc::Global;

/// What is found of steps: the first part that fails, or the moment at which the next step is due to begin, if there is one.
#[derive(Drop)]
pub enum StepsWalk {
    Fails(Part),
    Holds(Option<Dump>),
}

/// Whether what is known of a state is what is known of the dumped one, if there is one.
fn has_due_state(due: &Option<Dump>, present: &Seen) -> bool
    ensures { result ≡ has_state (option_map present_in due.now) present.now }
{
    match due {
        None => false,
        Some(dump) => present.equals(&dump.state),
    }
}

/// Whether two signatures are the same, or neither is there.
fn are_same(a: &Option<Bits>, b: &Option<Bits>) -> bool
    ensures { result ≡ all_bits_eq (option_to_list a.now) (option_to_list b.now) }
{
    match a {
        None => b.is_none(),
        Some(a) => match b {
            None => false,
            Some(b) => a.equals(b),
        },
    }
}

/// Whether a signature and the older one are all that a register holds.
fn are_held(stored: &Bits, older: &Option<Bits>, dump: &Dump) -> bool
    ensures { result ≡ all_bits_eq (stored.now ∷ option_to_list older.now) (signatures_of dump.now) }
{
    match &dump.stored {
        Some(last) => stored.equals(last) && are_same(older, &dump.older),
        None => match &dump.older {
            Some(last) => stored.equals(last) && older.is_none(),
            None => false,
        },
    }
}

/// Whether a step's signatures are those of the dump, if there is one.
fn has_due_stored(due: &Option<Dump>, step: &Step) -> bool
    ensures { result ≡ has_stored (option_map present_in due.now) (stored_of step.now) }
{
    match due {
        None => false,
        Some(dump) => are_held(&step.stored, &step.older, dump),
    }
}

/// The first part before the candidates that fails.
fn wrong_begin(i: usize, due: &Option<Dump>, step: &Step) -> Option<Part>
    requires { i + 1 < 2 ^ 64 }
    ensures { result ≡ first_of_all (begin_parts i (option_map present_in due.now) step.now) }
{
    if !has_due_state(due, &step.present) {
        return Some(Part::Present(number(i)));
    }
    if !has_due_stored(due, step) {
        return Some(Part::Stored(number(i)));
    }
    None
}

/// Whether a list ends by its budget of candidates exactly where it has as many.
fn is_right_length(budgets: &Budgets, end: ListEnd, count: usize) -> bool
    ensures { result ≡ is_right_count budgets.now end count }
{
    let full = count as u64 == budgets.candidates;
    match end {
        ListEnd::Candidates => full,
        ListEnd::Finished(_) => !full,
        ListEnd::Conflicts => !full,
    }
}

/// Whether a hit line is that of a hit, and none where there is none.
fn is_hit(line: &Option<HitLine>, hit: &Option<Hit>) -> bool
    ensures { result ≡ same_hit line.now (option_map line_of hit.now) }
{
    match line {
        None => hit.is_none(),
        Some(line) => match hit {
            None => false,
            Some(hit) => {
                line.run == hit.run
                    && line.cycle == hit.cycle
                    && line.state.equals(&hit.dump.state.bits)
            }
        },
    }
}

/// The dump of a hit.
fn dump_of(hit: Option<Hit>) -> Option<Dump>
    ensures { result ≡ option_map (λ hit. hit.dump) hit }
{
    match hit {
        None => None,
        Some(hit) => Some(hit.dump),
    }
}

impl<'a> Replay<'a> {
    /// The parts behind the candidates, which are right.
    fn list(
        &mut self,
        alloc: Global,
        budgets: &Budgets,
        i: usize,
        step: &Step,
    ) -> Result<StepsWalk, NoMemory>
        requires small { i + 1 < 2 ^ 64 }
        requires widths { All (λ state. length state ≡ length self.old.circuit.flops) (listed step.now.cands) }
        ensures tried { IfOk result (IsListed self.old budgets.now i step.now) }
        ensures kept { self.new ≡ self.old }
    {
        if !is_right_length(budgets, step.end, step.cands.len()) {
            return Ok(StepsWalk::Fails(Part::Listed(number(i))));
        }
        let hit = self.hit(alloc, step.cands.slice())?;
        if !is_hit(&step.hit, &hit) {
            return Ok(StepsWalk::Fails(Part::Hit(number(i))));
        }
        Ok(StepsWalk::Holds(dump_of(hit)))
    }

    /// One step, counted from 0, that is due to begin at a dump.
    fn step(
        &mut self,
        alloc: Global,
        budgets: &Budgets,
        i: usize,
        due: &Option<Dump>,
        step: &Step,
    ) -> Result<StepsWalk, NoMemory>
        requires { i + 1 < 2 ^ 64 }
        ensures tried { IfOk result (IsTried self.old budgets.now i (option_map present_in due.now) step.now) }
        ensures kept { self.new ≡ self.old }
    {
        match wrong_begin(i, due, step) {
            Some(part) => Ok(StepsWalk::Fails(part)),
            None => match self.wrong_candidate(alloc, budgets, i, step)? {
                Some(part) => Ok(StepsWalk::Fails(part)),
                None => self.list(alloc, budgets, i, step),
            },
        }
    }

    /// All steps, one after another.
    pub fn walk(&mut self, alloc: Global, report: &Report) -> Result<StepsWalk, NoMemory>
        ensures walked { IfOk result (IsWalked self.old report.now) }
        ensures kept { self.new ≡ self.old }
    {
        let mut due = Some(self.dump.copy()?);
        'steps: for i in 0..report.steps.len() {
            match self.step(alloc, &report.budgets, i, &due, report.steps.get(i))? {
                StepsWalk::Fails(part) => return Ok(StepsWalk::Fails(part)),
                StepsWalk::Holds(next) => due = next,
            }
        }
        Ok(StepsWalk::Holds(due))
    }
}
