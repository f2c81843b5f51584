// A text is cut into lines, and a line into words; the pieces borrow the text.
ghost use Rattle.std.specs.Prelude.{◌≡◌, IfOk};
ghost use Rattle.text.specs.Lines.{lines, words, pieces};

use bstr::ByteSlice;
use std::alloc::{AllocError, Global};

// The lines of a text.
pub fn lines_of<'a>(heap: Global, text: &'a [u8]) -> Result<Vec<&'a [u8]>, AllocError>
    ensures { IfOk result (λ v. pieces v.items ≡ lines text.now) }
{
    text.lines().collect(heap)
}

// The words of a line.
pub fn words_of<'a>(heap: Global, line: &'a [u8]) -> Result<Vec<&'a [u8]>, AllocError>
    ensures { IfOk result (λ v. pieces v.items ≡ words line.now) }
{
    line.split(|b| *b == b' ')
        .filter(|word| !word.is_empty())
        .collect(heap)
}
