//! The order of a job's cells, and its group entries.
ghost use Rattle.std.specs.Prelude.{◌≡◌, ◌≤◌, [], vec_items};
ghost use Rattle.formats.specs.Rules as rule;
ghost use Rattle.formats.specs.Reading as file;
ghost use Rattle.formats.specs.Held.{order_fields};
ghost use Rattle.reading.specs.Calls.{Took, TookAs};

use crate::error::ReadError;
use crate::reader::Reader;
use formats::{BookKind, Entry, OrderLists, fits};
use refusal::FieldFault;
use std::alloc::Global;

impl<'a> Reader<'a> {
    /// The number of a row or an expression that comes after these; `list` is the list's place in the order.
    // (kind, count and place of the list go through two private calls; a struct for them would be filled and taken apart in each)
    fn order_number(
        &mut self,
        kind: BookKind,
        n: usize,
        list: usize,
        before: &[usize],
    ) -> Result<usize, FieldFault>
        ensures { Took (file.order_number_at kind n list before.now) self.old result self.new }
    {
        let at = self.at;
        let number = self.number()? as usize;
        if fits(kind, n, before, number) {
            Ok(number)
        } else {
            Err(FieldFault::Order {
                at,
                list,
                place: before.len(),
            })
        }
    }

    /// A row or an expression of so many numbers.
    fn order_list(
        &mut self,
        heap: Global,
        kind: BookKind,
        n: usize,
        list: usize,
        size: usize,
    ) -> Result<Vec<usize>, ReadError>
        ensures { TookAs vec_items (file.order_list_at kind n list size) self.old result self.new }
    {
        let mut numbers = Vec::new(heap);
        // (no iterator: each number is judged by those before it)
        for _ in 0..size {
            let number = self.order_number(kind, n, list, &numbers)?;
            numbers.push(number)?;
        }
        Ok(numbers)
    }

    /// The rows or the expression of `n` cells.
    pub(crate) fn order(
        &mut self,
        heap: Global,
        kind: BookKind,
        n: usize,
    ) -> Result<OrderLists, ReadError>
        requires some { 1 ≤ n }
        requires few { n ≤ 64 }
        ensures { TookAs order_fields (file.order kind n) self.old result self.new }
    {
        match kind {
            BookKind::SequencePair => {
                let first = self.order_list(heap, kind, n, 1, n)?;
                let second = self.order_list(heap, kind, n, 2, n)?;
                Ok(OrderLists::SequencePair { first, second })
            }
            BookKind::Slicing => {
                let expression = self.order_list(heap, kind, n, 1, 2 * n - 1)?;
                Ok(OrderLists::Slicing { expression })
            }
        }
    }

    /// So many group entries, in a group over `n` cells.
    pub(crate) fn entries(
        &mut self,
        heap: Global,
        n: usize,
        count: u32,
    ) -> Result<Vec<Entry>, ReadError>
        ensures { TookAs vec_items (file.entries n count []) self.old result self.new }
    {
        // no text in common with `order_list`: it would take a closure over the reader and the items so far, and be longer
        let mut entries = Vec::new(heap);
        for _ in 0..count {
            let entry = self.entry(n, &entries)?;
            entries.push(entry)?;
        }
        Ok(entries)
    }
}
