//! Logs, as lists of lines.
ghost use Rattle.std.specs.Prelude.{◌≡◌, ◌<◌, [], ◌∷◌, ◌++◌, length, slice_get, OnOk, OnErr};

use crate::line::Line;
use bs_bits::NoMemory;
use std::alloc::Global;
use std::marker::Model;

/// A list of lines.
#[derive(Drop)]
pub struct Log {
    items: Vec<Line>,
}

impl Model for Log {
    ghost use Rattle.std.specs.Prelude.{List};
    ghost use Rattle.bs_log.specs.declared.line.Line.{Line};

    ghost Value = { List Line };

    ghost view = { λ log. log.items.items };
}

impl Log {
    /// A log without a line.
    pub fn new(alloc: Global) -> Log
        ensures { result ≡ [] }
    {
        Log {
            items: Vec::new(alloc),
        }
    }

    /// Puts a line at the end.
    pub fn push(&mut self, line: Line) -> Result<(), NoMemory>
        ensures ok { OnOk result (self.new ≡ self.old ++ line ∷ []) }
        ensures err { OnErr result (self.new ≡ self.old) }
    {
        self.items.push(line)?;
        Ok(())
    }

    /// Puts two lines at the end, or neither where memory runs out.
    pub fn push_two(&mut self, first: Line, second: Line) -> Result<(), NoMemory>
        ensures ok { OnOk result (self.new ≡ self.old ++ first ∷ second ∷ []) }
        ensures err { OnErr result (self.new ≡ self.old) }
    {
        self.items.reserve(2)?;
        let _ = self.items.push(first);
        let _ = self.items.push(second);
        Ok(())
    }

    /// The number of lines.
    pub fn len(&self) -> usize
        ensures { result ≡ length self.now }
    {
        self.items.len()
    }

    /// The line at a place, counted from 0.
    pub fn get(&self, i: usize) -> &Line
        requires { i < length self.now }
        ensures { slice_get self.now i ≡ Some result.now }
    {
        &self.items[i]
    }

    /// The lines.
    pub fn slice(&self) -> &[Line]
        ensures { result.now ≡ self.now }
    {
        self.items.as_slice()
    }
}
