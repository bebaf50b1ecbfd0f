//! The placing of a sheet.
ghost use Rattle.group.specs.Group.{sheet_of};
ghost use Rattle.placing.specs.Placing.{Placing, five};

use crate::sheet::Sheet;
use book::Book;
use length::Length;
use placing::Extent;
use refusal::SheetFault;

impl<B: Book> Sheet<B> {
    /// Places the cells, as low and as narrow as any placement can be: fills `x` with left edges and `y` with bottom edges,
    /// and the work list with the widths of the longest chains into each cell and, after those, into each image.
    pub fn place<T: Length>(
        &self,
        widths: &[T],
        heights: &[T],
        work: &mut [T],
        x: &mut [T],
        y: &mut [T],
    ) -> Result<Extent<T>, SheetFault>
        ensures { Placing T.Length.kind (sheet_of (B.Book.order self.now.book) self.now.group) (five widths.now heights.now work.old x.old y.old) (five widths.now heights.now work.new x.new y.new) result }
    {
        placing::place(&self.book, &self.group, widths, heights, work, x, y)
    }
}
