//! Laws of lines, each the contract of a function that does nothing.
ghost use Rattle.std.specs.Prelude.{ℕ, List, IfOk};
ghost use Rattle.blk_model.specs.Request.{Request, IsRequest};
ghost use Rattle.blk_script.specs.Line.{IsReadAsPrinted, read_text};
ghost use Rattle.blk_model.specs.Items.{IsBytes};

/// A command that is printed is read back as the same, where its line and its data are not too long.
pub fn commands_are_read_as_printed()
    ensures { (request : Request) → IsRequest request → IsReadAsPrinted request }
{}

/// The command that a line of bytes gives has numbers in the ranges of their types.
pub fn commands_are_in_range()
    ensures { (line : List ℕ) → IsBytes line → IfOk (read_text line) IsRequest }
{}
