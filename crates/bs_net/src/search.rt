//! A depth-first search over fan-in, which lists each gate after the gates that it reads.
ghost use Rattle.std.specs.Prelude.{◌≡◌, ◌<◌, ◌^◌, [], ℕ, true, length, slice_index_or, OnOk, OnErr, IfOk, IfSome, IfNone, All, map, replicate, reverse};
ghost use Rattle.bs_net.specs.Loops.{is_in};
ghost use Rattle.bs_net.specs.Search.{entered, advanced, closed, IsSearch, IsDriverTable, CoversInputs, Finds, MarkFinds, ClosesLoop, StayFound, effort, start};

use crate::net::Gate;
use bs_bits::NoMemory;
use std::alloc::Global;
use std::marker::Model;

/// How far a gate is.
#[derive(Clone, Copy)]
pub(crate) enum GateMark {
    New,
    Open,
    Listed,
}

/// What the newest open gate waits for.
pub(crate) enum OpenGate {
    /// All its inputs are examined.
    Whole,
    /// Its next input is driven by no gate or by a listed one.
    Ready,
    /// Its next input is driven by a new gate.
    Unlisted(u32),
    /// Its next input is driven by an open gate.
    OnPath(u32),
}

/// A search: the open gates are a path, each one's output read by the one below it.
#[derive(Drop)]
pub(crate) struct Search {
    marks: Vec<GateMark>,
    left: Vec<u32>,
    path: Vec<u32>,
    listed: Vec<u32>,
}

impl Model for Search {
    ghost use Rattle.bs_net.specs.Search.{State};
    ghost use Rattle.std.specs.Prelude.{reverse};

    ghost Value = { State };

    ghost view = { λ s. record { marks = s.marks.items; left = s.left.items; path = reverse s.path.items; listed = reverse s.listed.items } };
}

/// New marks.
fn new_marks(alloc: Global, count: usize) -> Result<Vec<GateMark>, NoMemory>
    ensures { IfOk result (λ m. m.items ≡ replicate count GateMark.New) }
{
    let marks = vec![in alloc; GateMark::New; count]?;
    Ok(marks)
}

/// How many inputs each gate has.
fn input_counts(alloc: Global, gates: &[Gate]) -> Result<Vec<u32>, NoMemory>
    requires { All (λ g. length g.ins < 2 ^ 32) gates.now }
    ensures { IfOk result (λ c. c.items ≡ map (λ g. length g.ins) gates.now) }
{
    let mut counts = Vec::new(alloc);
    for gate in gates {
        counts.push(gate.ins.slice().len() as u32)?;
    }
    Ok(counts)
}

impl Search {
    /// No gate is open or listed.
    pub(crate) fn new(alloc: Global, gates: &[Gate]) -> Result<Search, NoMemory>
        requires { All (λ g. length g.ins < 2 ^ 32) gates.now }
        ensures { IfOk result (λ s. s ≡ start gates.now) }
    {
        let marks = new_marks(alloc, gates.len())?;
        let left = input_counts(alloc, gates)?;
        Ok(Search {
            marks,
            left,
            path: Vec::new(alloc),
            listed: Vec::new(alloc),
        })
    }

    /// The open gates, the oldest first.
    pub(crate) fn path(&self) -> &[u32]
        ensures { reverse result.now ≡ self.now.path }
    {
        self.path.as_slice()
    }

    /// The listed gates, in their order.
    pub(crate) fn listed(&self) -> &[u32]
        ensures { result.now ≡ reverse self.now.listed }
    {
        self.listed.as_slice()
    }

    /// The mark of a gate.
    fn mark(&self, g: u32) -> GateMark
        requires { g < length self.now.marks }
        ensures { result ≡ slice_index_or self.now.marks g GateMark.New }
    {
        self.marks[g as usize]
    }

    /// How many inputs of a gate are not examined.
    fn left(&self, g: u32) -> u32
        requires { g < length self.now.left }
        ensures { result ≡ slice_index_or self.now.left g 0 }
    {
        self.left[g as usize]
    }

    /// How many gates are open.
    fn depth(&self) -> usize
        ensures { result ≡ length self.now.path }
    {
        self.path.len()
    }

    /// The newest open gate.
    fn top(&self) -> u32
        requires { 0 < length self.now.path }
        ensures { result ≡ slice_index_or self.now.path 0 0 }
    {
        self.path[self.path.len() - 1]
    }

    /// Opens a gate.
    fn enter(&mut self, h: u32) -> Result<(), NoMemory>
        requires { h < length self.old.marks }
        ensures ok { OnOk result (self.new ≡ entered self.old h) }
        ensures err { OnErr result (self.new ≡ self.old) }
    {
        self.path.push(h)?;
        self.marks[h as usize] = GateMark::Open;
        Ok(())
    }

    /// Counts an input of a gate as examined.
    fn advance(&mut self, g: u32)
        requires placed { g < length self.old.left }
        requires some { 0 < slice_index_or self.old.left g 0 }
        ensures { self.new ≡ advanced self.old g }
    {
        self.left[g as usize] -= 1;
    }

    /// Lists the newest open gate.
    fn close(&mut self) -> Result<(), NoMemory>
        requires some { 0 < length self.old.path }
        requires placed { slice_index_or self.old.path 0 0 < length self.old.marks }
        ensures ok { OnOk result (self.new ≡ closed self.old) }
        ensures err { OnErr result (self.new ≡ self.old) }
    {
        let g = self.top();
        self.listed.push(g)?;
        let _ = self.path.pop();
        self.marks[g as usize] = GateMark::Listed;
        Ok(())
    }

    /// What the newest open gate waits for.
    fn look(&self, gates: &[Gate], table: &[Option<u32>]) -> OpenGate
        requires search { IsSearch gates.now table.now self.now }
        requires drivers { IsDriverTable gates.now table.now }
        requires covers { CoversInputs gates.now table.now }
        requires some { 0 < length self.now.path }
        ensures { Finds gates.now table.now self.now result }
    {
        let g = self.top();
        let gate = &gates[g as usize];
        let ins = gate.ins.slice();
        let left = self.left(g) as usize;
        if left == 0 {
            return OpenGate::Whole;
        }
        let net = ins[ins.len() - left];
        match table[net.0 as usize] {
            None => OpenGate::Ready,
            Some(h) => self.look_at(h),
        }
    }

    /// The same where a gate drives the next input.
    fn look_at(&self, h: u32) -> OpenGate
        requires { h < length self.now.marks }
        ensures { MarkFinds (slice_index_or self.now.marks h GateMark.New) h result }
    {
        match self.mark(h) {
            GateMark::New => OpenGate::Unlisted(h),
            GateMark::Open => OpenGate::OnPath(h),
            GateMark::Listed => OpenGate::Ready,
        }
    }

    /// Goes on by one step; or the open gate that closes a loop.
    fn step(&mut self, gates: &[Gate], table: &[Option<u32>]) -> Result<Option<u32>, NoMemory>
        requires search { IsSearch gates.now table.now self.old }
        requires drivers { IsDriverTable gates.now table.now }
        requires covers { CoversInputs gates.now table.now }
        requires some { 0 < length self.old.path }
        ensures search { IsSearch gates.now table.now self.new }
        ensures goes { IfOk result (λ found. IfNone found (effort gates.now self.new < effort gates.now self.old)) }
        ensures closes { IfOk result (λ found. IfSome found (λ h. ClosesLoop gates.now self.new h)) }
        ensures found { StayFound self.old self.new }
    {
        match self.look(gates, table) {
            OpenGate::Whole => {
                self.close()?;
                Ok(None)
            }
            OpenGate::Ready => {
                let g = self.top();
                self.advance(g);
                Ok(None)
            }
            OpenGate::Unlisted(h) => {
                self.enter(h)?;
                Ok(None)
            }
            OpenGate::OnPath(h) => Ok(Some(h)),
        }
    }

    /// Goes on until no gate is open, or a loop is closed.
    fn descend(&mut self, gates: &[Gate], table: &[Option<u32>]) -> Result<Option<u32>, NoMemory>
        requires search { IsSearch gates.now table.now self.old }
        requires drivers { IsDriverTable gates.now table.now }
        requires covers { CoversInputs gates.now table.now }
        ensures search { IsSearch gates.now table.now self.new }
        ensures done { IfOk result (λ found. IfNone found (self.new.path ≡ [])) }
        ensures closes { IfOk result (λ found. IfSome found (λ h. ClosesLoop gates.now self.new h)) }
        ensures found { StayFound self.old self.new }
    {
        'steps: while self.depth() > 0 {
            if let Some(h) = self.step(gates, table)? {
                return Ok(Some(h));
            }
        }
        Ok(None)
    }

    /// Searches from every gate: all are listed, or a loop is closed.
    pub(crate) fn run(
        &mut self,
        gates: &[Gate],
        table: &[Option<u32>],
    ) -> Result<Option<u32>, NoMemory>
        requires search { IsSearch gates.now table.now self.old }
        requires drivers { IsDriverTable gates.now table.now }
        requires covers { CoversInputs gates.now table.now }
        requires none { self.old.path ≡ [] }
        requires few { length gates.now < 2 ^ 32 }
        ensures search { IsSearch gates.now table.now self.new }
        ensures done { IfOk result (λ found. IfNone found (self.new.path ≡ [])) }
        ensures all { IfOk result (λ found. IfNone found ((g : ℕ) → g < length gates.now → is_in g self.new.listed ≡ true)) }
        ensures closes { IfOk result (λ found. IfSome found (λ h. ClosesLoop gates.now self.new h)) }
    {
        for g in 0..gates.len() {
            if let GateMark::New = self.mark(g as u32) {
                self.enter(g as u32)?;
                if let Some(h) = self.descend(gates, table)? {
                    return Ok(Some(h));
                }
            }
        }
        Ok(None)
    }
}
