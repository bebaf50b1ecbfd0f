//! What writing refuses, each with the fault that comes first.
use crate::ROOM;
use formats::{Entry, Job, OrderLists, Placement, Turn};
use length::Plain;
use refusal::{Refusal, SheetFault};
use std::alloc::{AllocError, Global};
use writing::{write_job, write_placement};

/// Two cells side by side, mates of each other.
fn pair_of_cells(heap: Global) -> Result<Job<Plain>, AllocError> {
    Ok(Job {
        count: 2,
        order: OrderLists::SequencePair {
            first: vec![in heap; 0, 1]?,
            second: vec![in heap; 0, 1]?,
        },
        turn: Turn::AsItIs,
        processes: 1,
        widths: vec![in heap; Plain(4), Plain(4)]?,
        heights: vec![in heap; Plain(3), Plain(3)]?,
        entries: vec![in heap;
            Entry {
                first: 0,
                second: 1
            },
        ]?,
    })
}

/// How long a file was written, or why none was.
fn print_written(
    rt: &HostRuntime,
    what: &str,
    written: Result<usize, SheetFault>,
) -> anyhow::Result<()> {
    match written {
        Ok(size) => println!(rt; "{what}: {size} bytes")?,
        Err(fault) => {
            let refusal = Refusal::from(fault);
            println!(rt; "{what}: {fault} ({refusal})")?;
        }
    }
    Ok(())
}

/// Counts, and lists that disagree with them.
fn print_counts(rt: &HostRuntime) -> anyhow::Result<()> {
    let heap = rt.alloc();
    let mut room = [0; ROOM];
    let job = Job {
        count: 65,
        ..pair_of_cells(heap)?
    };
    print_written(rt, "65 cells", write_job(&job, &mut room))?;
    let job = Job {
        processes: 2,
        ..pair_of_cells(heap)?
    };
    print_written(rt, "two processes", write_job(&job, &mut room))?;
    let job = Job {
        processes: 3,
        ..pair_of_cells(heap)?
    };
    print_written(
        rt,
        "three processes, with one number a length",
        write_job(&job, &mut room),
    )?;
    let job = Job {
        heights: vec![in heap; Plain(3)]?,
        ..pair_of_cells(heap)?
    };
    print_written(rt, "one height too few", write_job(&job, &mut room))
}

/// Fields that break their rules.
fn print_fields(rt: &HostRuntime) -> anyhow::Result<()> {
    let heap = rt.alloc();
    let mut room = [0; ROOM];
    let job = Job {
        order: OrderLists::Slicing {
            expression: vec![in heap; 0, 2, 1]?,
        },
        ..pair_of_cells(heap)?
    };
    print_written(rt, "a join of one part", write_job(&job, &mut room))?;
    let job = Job {
        widths: vec![in heap; Plain(4), Plain(0)]?,
        ..pair_of_cells(heap)?
    };
    print_written(rt, "a width of nothing", write_job(&job, &mut room))?;
    let job = Job {
        entries: vec![in heap;
            Entry {
                first: 1,
                second: 0
            },
        ]?,
        ..pair_of_cells(heap)?
    };
    print_written(rt, "the higher cell first", write_job(&job, &mut []))
}

/// Prints what writing jobs comes to.
pub(crate) fn print_jobs(rt: &HostRuntime) -> anyhow::Result<()> {
    println!(rt; "# jobs written")?;
    let mut room = [0; ROOM];
    let job = pair_of_cells(rt.alloc())?;
    print_written(rt, "two cells in a row", write_job(&job, &mut room))?;
    print_written(
        rt,
        "the same into one byte too few",
        write_job(&job, &mut [0; 14]),
    )?;
    print_counts(rt)?;
    print_fields(rt)
}

/// One cell at the left end.
fn one_cell(heap: Global) -> Result<Placement<Plain>, AllocError> {
    Ok(Placement {
        count: 1,
        processes: 1,
        half_span: Plain(300),
        depth: Plain(1),
        x: vec![in heap; Plain(0)]?,
        y: vec![in heap; Plain(0)]?,
    })
}

/// Prints what writing placements comes to.
pub(crate) fn print_placements(rt: &HostRuntime) -> anyhow::Result<()> {
    println!(rt; "# placements written")?;
    let mut room = [0; ROOM];
    let mut placement = one_cell(rt.alloc())?;
    print_written(rt, "one cell", write_placement(&placement, &mut room))?;
    print_written(
        rt,
        "the same into no byte at all",
        write_placement(&placement, &mut []),
    )?;
    placement.count = 2;
    print_written(
        rt,
        "two cells, with one left edge",
        write_placement(&placement, &mut room),
    )?;
    placement.processes = 0;
    print_written(
        rt,
        "the same with no process",
        write_placement(&placement, &mut room),
    )?;
    placement.count = 0;
    print_written(
        rt,
        "the same with no cell",
        write_placement(&placement, &mut room),
    )
}
