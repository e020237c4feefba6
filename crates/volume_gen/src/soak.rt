//! The lines of the soak script, one after another.
ghost use Rattle.std.specs.Prelude.{◌≡◌, ◌∷◌, []};
ghost use Rattle.std.specs.Bool.{OnFalse, OnTrue};
ghost use Rattle.volume_gen.specs.Soak.{soak_lines};

use crate::script_lines::{put_edit, put_work, put_write};
use arrayvec::ArrayString;
use std::marker::Model;

/// Which line of a turn comes next.
#[derive(Clone, Copy)]
enum Part {
    Edit,
    Work,
    Write,
}

/// The lines of the soak script that are left. Contracts see them as a list.
#[derive(Drop)]
pub struct SoakLines {
    part: Part,
    turn: u8,
    state: u64,
}

impl Model for SoakLines {
    ghost use Rattle.std.specs.Prelude.{ℕ, List};
    ghost use Rattle.volume_gen.specs.Left.{IsPart, lines_from};

    ghost Value = { List (List ℕ) };

    ghost view = { λ s. lines_from s.part s.turn s.state };

    ghost invariant = { λ s. IsPart s.part s.turn };
}

impl SoakLines {
    /// The lines of the script of a seed, none of them taken yet.
    pub fn new(seed: u64) -> SoakLines
        ensures { result ≡ soak_lines seed }
    {
        SoakLines {
            part: Part::Edit,
            turn: 0,
            state: seed,
        }
    }

    /// Replaces `line` by the next line. Where none is left, `line` stays and the answer is false.
    pub fn next_line(&mut self, line: &mut ArrayString<96>) -> bool
        ensures more { OnTrue result (self.old ≡ line.new.bytes ∷ self.new) }
        ensures end { OnFalse result ((self.old ≡ []) × (self.new ≡ []) × (line.new.bytes ≡ line.old.bytes)) }
    {
        match self.part {
            Part::Edit => {
                if self.turn == 200 {
                    return false;
                }
                self.state = put_edit(self.state, line);
                self.part = Part::Work;
            }
            Part::Work => {
                self.state = put_work(self.state, line);
                if self.turn % 20 == 19 {
                    self.part = Part::Write;
                } else {
                    self.turn += 1;
                    self.part = Part::Edit;
                }
            }
            Part::Write => {
                put_write(line);
                self.turn += 1;
                self.part = Part::Edit;
            }
        }
        true
    }
}
