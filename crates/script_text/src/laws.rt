//! The laws of the language: each function does nothing, and its contract is the law.
ghost use Rattle.std.specs.Prelude.{◌≡◌, ◌≤◌, Ok, length};
ghost use Rattle.iso_model.specs.declared.limits.TheConstants.{MAX_LINE};
ghost use Rattle.script_model.specs.{declared.script.Line.Line, declared.script.Op.Op, declared.script.Parsed.TheVariants.{Line as Says}, Script.{operation_of, parse}, Text.words_of};
ghost use Rattle.script_text.specs.Spelling.{arguments_of, line_text, line_words, name_of, IsLine, IsSayable};

/// A printed line has the words of the line, and a printed operation is read as that operation. So a printed line that is
/// not too long is read as that line, and two lines with one spelling are one line.
pub fn printed_lines_are_read()
    ensures words { (line : Line) → IsLine line → words_of (line_text line) ≡ line_words line }
    ensures operations { (op : Op) → IsSayable op → operation_of (name_of op) (arguments_of op) ≡ Ok op }
    ensures lines { (line : Line) → IsLine line → length (line_text line) ≤ MAX_LINE → parse (line_text line) ≡ Ok (Says line) }
    ensures one { (line other : Line) → IsLine line → IsLine other → line_text line ≡ line_text other → line ≡ other }
{}
