//! What writing checks before it writes, in this order: the counts, the lengths of the lists, then each field in file order.
ghost use Rattle.std.specs.Prelude.{◌≡◌, ◌≤◌, [], map, length};
ghost use Rattle.formats.specs.Held.{order_fields, job_fields, placement_fields};
ghost use Rattle.formats.specs.Rules as rule;
ghost use Rattle.formats.specs.Reading.{misordered};
ghost use Rattle.formats.specs.Writing as file;

use formats::{BookKind, Entry, Job, OrderLists, Placement, fits, fits_entry, is_count};
use length::Numbered;
use refusal::{FieldFault, SheetFault, Side};

/// Checks the number of cells, then the number of processes.
fn check_counts(n: usize, processes: usize) -> Result<(), SheetFault>
    ensures { result ≡ file.counts_check n processes }
{
    if !is_count(n) {
        return Err(SheetFault::Field(FieldFault::CellCount { at: 0, count: n }));
    }
    if processes != 1 && processes != 3 {
        return Err(SheetFault::Field(FieldFault::UnknownChoice { at: 0 }));
    }
    Ok(())
}

/// Refuses the list with this number where it has the wrong length.
fn check_length(ok: bool, list: usize) -> Result<(), SheetFault>
    ensures { result ≡ file.length_check ok list }
{
    if ok {
        Ok(())
    } else {
        Err(SheetFault::ListLength { list })
    }
}

/// Whether there are `n` lengths, of so many numbers each.
fn is_long<T: Numbered>(n: usize, processes: usize, list: &[T]) -> bool
    ensures { result ≡ file.are_long n processes (map T.Numbered.numbers list.now) }
{
    list.len() == n && (list.is_empty() || T::NUMBERS == processes)
}

/// Checks two lists of lengths, the first of which has this number.
fn check_columns<T: Numbered>(
    n: usize,
    processes: usize,
    list: usize,
    firsts: &[T],
    seconds: &[T],
) -> Result<(), SheetFault>
    requires { list ≤ 3 }
    ensures { result ≡ file.columns_check n processes list (map T.Numbered.numbers firsts.now) (map T.Numbered.numbers seconds.now) }
{
    check_length(is_long(n, processes, firsts), list)?;
    check_length(is_long(n, processes, seconds), list + 1)
}

/// Checks the lengths of a job's lists.
fn check_lists<T: Numbered>(job: &Job<T>) -> Result<(), SheetFault>
    requires some { 1 ≤ job.now.count }
    requires few { job.now.count ≤ 64 }
    ensures { result ≡ file.lists_check (job_fields T.Numbered.numbers job.now) (order_fields job.now.order) }
{
    let n = job.count;
    match &job.order {
        OrderLists::SequencePair { first, second } => {
            check_length(first.len() == n, 1)?;
            check_length(second.len() == n, 2)?;
            check_columns(n, job.processes, 3, &job.widths, &job.heights)
        }
        OrderLists::Slicing { expression } => {
            check_length(expression.len() == 2 * n - 1, 1)?;
            check_columns(n, job.processes, 2, &job.widths, &job.heights)
        }
    }
}

/// Checks each number of a row or an expression by those before it.
fn check_list(kind: BookKind, n: usize, list: usize, numbers: &[usize]) -> Result<(), SheetFault>
    ensures { result ≡ file.list_check (rule.fits kind n) (file.unplaced list) [] numbers.now }
{
    for (place, number) in numbers.iter().enumerate() {
        if !fits(kind, n, &numbers[..place], *number) {
            return Err(SheetFault::Field(FieldFault::Order { at: 0, list, place }));
        }
    }
    Ok(())
}

/// Checks the rows or the expression.
fn check_order(n: usize, order: &OrderLists) -> Result<(), SheetFault>
    ensures { result ≡ file.order_check n (order_fields order.now) }
{
    match order {
        OrderLists::SequencePair { first, second } => {
            check_list(BookKind::SequencePair, n, 1, first)?;
            check_list(BookKind::SequencePair, n, 2, second)
        }
        OrderLists::Slicing { expression } => check_list(BookKind::Slicing, n, 1, expression),
    }
}

/// Checks that a width or a height is a size.
fn check_size<T: Numbered>(length: T, cell: usize, side: Side) -> Result<(), SheetFault>
    ensures { result ≡ file.size_check (T.Numbered.numbers length) cell side }
{
    if length.is_size() {
        Ok(())
    } else {
        Err(SheetFault::Field(FieldFault::NotASize { at: 0, cell, side }))
    }
}

/// Checks the width and the height of each cell.
fn check_sizes<T: Numbered>(widths: &[T], heights: &[T]) -> Result<(), SheetFault>
    ensures { result ≡ file.sizes_check 0 (map T.Numbered.numbers widths.now) (map T.Numbered.numbers heights.now) }
{
    for (cell, (width, height)) in widths.iter().zip(heights).enumerate() {
        check_size(*width, cell, Side::Width)?;
        check_size(*height, cell, Side::Height)?;
    }
    Ok(())
}

/// Checks each group entry by those before it.
fn check_entries(n: usize, entries: &[Entry]) -> Result<(), SheetFault>
    ensures { result ≡ file.entries_check n [] entries.now }
{
    // the walk of `check_list` with another rule and fault: one text over two closures is no plainer
    for (i, entry) in entries.iter().enumerate() {
        if !fits_entry(n, &entries[..i], *entry) {
            return Err(SheetFault::Field(FieldFault::GroupEntry { at: 0 }));
        }
    }
    Ok(())
}

/// Makes every check of a job.
pub(crate) fn check_job<T: Numbered>(job: &Job<T>) -> Result<(), SheetFault>
    ensures { result ≡ file.job_check (job_fields T.Numbered.numbers job.now) }
{
    check_counts(job.count, job.processes)?;
    check_lists(job)?;
    check_order(job.count, &job.order)?;
    check_sizes(&job.widths, &job.heights)?;
    check_entries(job.count, &job.entries)
}

/// Makes every check of a placement.
pub(crate) fn check_placement<T: Numbered>(placement: &Placement<T>) -> Result<(), SheetFault>
    ensures { result ≡ file.placement_check (placement_fields T.Numbered.numbers placement.now) }
{
    check_counts(placement.count, placement.processes)?;
    check_columns(
        placement.count,
        placement.processes,
        1,
        &placement.x,
        &placement.y,
    )
}
