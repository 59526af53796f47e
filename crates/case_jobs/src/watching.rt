//! An operator that notes the batches it is given.

use bytes::Bytes;
use fleet_fold::MergeOperator;
use fleet_rows::MergeOperatorError;
use std::alloc::{AllocError, Global};
use std::sync::atomic::{AtomicUsize, Ordering};

// The greatest number of batches that are noted.
const MOST_NOTES: u32 = 8;

// A note of a batch: the number of its operands, the first byte of its first operand, and the last
// byte of its last operand.
#[derive(Drop)]
struct Note {
    len: AtomicUsize,
    first: AtomicUsize,
    last: AtomicUsize,
}

impl Note {
    fn new() -> Note {
        Note {
            len: AtomicUsize::new(0),
            first: AtomicUsize::new(0),
            last: AtomicUsize::new(0),
        }
    }

    fn take(&self, operands: &[Bytes]) {
        self.len.store(operands.len(), Ordering::SeqCst);
        let first = operands.first().map(|operand| operand.as_slice());
        if let Some([byte, ..]) = first {
            self.first.store(*byte as usize, Ordering::SeqCst);
        }
        let last = operands.last().map(|operand| operand.as_slice());
        if let Some([.., byte]) = last {
            self.last.store(*byte as usize, Ordering::SeqCst);
        }
    }

    fn tell(&self, answer: &mut String) -> Result<(), AllocError> {
        write!(answer, " {}:", self.len.load(Ordering::SeqCst))?;
        write!(answer, "{}-", self.first.load(Ordering::SeqCst))?;
        write!(answer, "{}", self.last.load(Ordering::SeqCst))
    }
}

// The number of batches, and a note of each of the first ones.
#[derive(Drop)]
struct Notes {
    calls: AtomicUsize,
    notes: Vec<Note>,
}

impl Notes {
    fn new(alloc: Global) -> Result<Notes, AllocError> {
        let mut notes = Vec::new(alloc);
        'notes: for _ in 0..MOST_NOTES {
            notes.push(Note::new())?;
        }
        Ok(Notes {
            calls: AtomicUsize::new(0),
            notes,
        })
    }

    fn take(&self, operands: &[Bytes]) {
        let place = self.calls.fetch_add(1, Ordering::SeqCst);
        if let Some(note) = self.notes.get(place) {
            note.take(operands);
        }
    }

    fn tell(&self, answer: &mut String) -> Result<(), AllocError> {
        let calls = self.calls.load(Ordering::SeqCst);
        write!(answer, " {calls}")?;
        'notes: for note in self.notes.iter().take(calls) {
            note.tell(answer)?;
        }
        Ok(())
    }
}

/// An operator that notes the batches that another operator is given.
#[derive(Drop)]
pub struct Watching<O: MergeOperator + Drop> {
    operator: O,
    notes: Notes,
}

impl<O: MergeOperator + Drop> Watching<O> {
    pub fn new(alloc: Global, operator: O) -> Result<Watching<O>, AllocError> {
        let notes = Notes::new(alloc)?;
        Ok(Watching { operator, notes })
    }

    /// Appends the number of batches. For each noted batch it appends the number of operands, the
    /// first byte and the last byte.
    pub fn tell(&self, answer: &mut String) -> Result<(), AllocError> {
        self.notes.tell(answer)
    }
}

impl<O: MergeOperator + Drop> MergeOperator for Watching<O> {
    ghost settings = { λ w. O.settings w.operator };

    ghost merged = { O.merged };

    ghost lawful = { O.lawful };

    fn merge(
        &self,
        alloc: Global,
        key: &Bytes,
        existing_value: Option<Bytes>,
        value: Bytes,
    ) -> Result<Bytes, MergeOperatorError> {
        self.operator.merge(alloc, key, existing_value, value)
    }

    fn merge_batch(
        &self,
        alloc: Global,
        key: &Bytes,
        existing_value: Option<Bytes>,
        operands: &[Bytes],
    ) -> Result<Bytes, MergeOperatorError> {
        self.notes.take(operands);
        self.operator
            .merge_batch(alloc, key, existing_value, operands)
    }
}
