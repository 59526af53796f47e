//! Draws numbers, and appends the lines that they make.

ghost use Rattle.std.specs.Prelude.{◌≡◌, ◌<◌, ◌++◌, [], ◌∷◌, pos, OnOk, string_bytes};
ghost use Rattle.script_model.specs.Generated.{draw_below, generated_content, generated_flush, generated_round, generated_row, made_in_turn, state_after};
ghost use Rattle.script_model.specs.Script.{ReadKey, spelt_line, script_text};
ghost use Rattle.script_model.specs.Words.{row_text, rows_text};
ghost use Rattle.fleet_generate.specs.Spelling.{content_fields};

use crate::printing::{append_byte, append_job};
use std::alloc::{AllocError, Global};

/// A generator of lines.
#[derive(Drop)]
pub(crate) struct Generator {
    state: u64,
}

impl Generator {
    /// A generator whose first state is the number.
    pub(crate) fn new(number: u64) -> Generator
        ensures { result.state ≡ number }
    {
        Generator { state: number }
    }

    // Draws a number below `k`.
    fn draw(&mut self, k: u64) -> u64
        requires { 0 < k }
        ensures number { result ≡ draw_below k self.old.state }
        ensures state { self.new.state ≡ state_after self.old.state }
    {
        self.state = self
            .state
            .wrapping_mul(6_364_136_223_846_793_005)
            .wrapping_add(1_442_695_040_888_963_407);
        (self.state >> 33) % k
    }

    // Appends the kind of a row and the bytes of its content, which are drawn.
    fn append_content(
        &mut self,
        alloc: Global,
        kind: u64,
        out: &mut String,
    ) -> Result<(), AllocError>
        ensures text { OnOk result (string_bytes out.new ≡ string_bytes out.old
            ++ content_fields (generated_content kind self.old.state).0) }
        ensures state { OnOk result
            (self.new.state ≡ (generated_content kind self.old.state).1) }
    {
        if kind == 3 {
            return out.push_str(":t:-");
        }
        out.push_str(if kind == 2 { ":m:" } else { ":v:" })?;
        append_byte(alloc, self.draw(256) as u8, out)
    }

    // Appends row `place` of a flush.
    fn append_row(
        &mut self,
        alloc: Global,
        seq: u64,
        place: u64,
        out: &mut String,
    ) -> Result<(), AllocError>
        requires { place < 4 }
        ensures text { OnOk result (string_bytes out.new ≡ string_bytes out.old
            ++ row_text (generated_row seq place self.old.state).0) }
        ensures state { OnOk result
            (self.new.state ≡ (generated_row seq place self.old.state).1) }
    {
        let key = 64 * place + self.draw(64);
        append_byte(alloc, key as u8, out)?;
        let kind = self.draw(4);
        self.append_content(alloc, kind, out)?;
        out.push_str(":")?;
        out.write(seq)?;
        out.push_str(":-:-")
    }

    // Appends the four rows of a flush.
    fn append_rows(&mut self, alloc: Global, seq: u64, out: &mut String) -> Result<(), AllocError>
        ensures text { OnOk result (string_bytes out.new ≡ string_bytes out.old
            ++ rows_text (made_in_turn (generated_row seq) 4 0 self.old.state).0) }
        ensures state { OnOk result
            (self.new.state ≡ (made_in_turn (generated_row seq) 4 0 self.old.state).1) }
    {
        self.append_row(alloc, seq, 0, out)?;
        'rows: for place in 1..4 {
            out.push_str(",")?;
            self.append_row(alloc, seq, place, out)?;
        }
        Ok(())
    }

    // Appends a flush.
    fn append_flush(
        &mut self,
        alloc: Global,
        floor: u64,
        name: u64,
        out: &mut String,
    ) -> Result<(), AllocError>
        ensures text { OnOk result (string_bytes out.new ≡ string_bytes out.old
            ++ spelt_line (generated_flush floor name self.old.state).0) }
        ensures state { OnOk result
            (self.new.state ≡ (generated_flush floor name self.old.state).1) }
    {
        out.push_str("flush ")?;
        out.write(name)?;
        out.push_str(" - ")?;
        out.write(floor)?;
        out.push_str(" 0 ")?;
        self.append_rows(alloc, name, out)?;
        out.push_str("\n")
    }

    // Appends the read of a key, which is drawn.
    fn append_read(&mut self, alloc: Global, seq: u64, out: &mut String) -> Result<(), AllocError>
        ensures text { OnOk result (string_bytes out.new ≡ string_bytes out.old
            ++ spelt_line (ReadKey [] (draw_below 256 self.old.state ∷ []) seq (pos 0))) }
        ensures state { self.new.state ≡ state_after self.old.state }
    {
        let key = self.draw(256);
        out.push_str("read - ")?;
        append_byte(alloc, key as u8, out)?;
        out.push_str(" ")?;
        out.write(seq)?;
        out.push_str(" 0\n")
    }

    /// Appends the lines of a round, which `round` rounds are before.
    pub(crate) fn append_round(
        &mut self,
        alloc: Global,
        round: u64,
        out: &mut String,
    ) -> Result<(), AllocError>
        requires { round < 2000 }
        ensures text { OnOk result (string_bytes out.new ≡ string_bytes out.old
            ++ script_text (generated_round round self.old.state).0) }
        ensures state { OnOk result
            (self.new.state ≡ (generated_round round self.old.state).1) }
    {
        let floor = 3 * round;
        'flushes: for name in floor + 1..floor + 4 {
            self.append_flush(alloc, floor, name, out)?;
        }
        append_job(round, out)?;
        self.append_read(alloc, floor + 3, out)
    }
}
