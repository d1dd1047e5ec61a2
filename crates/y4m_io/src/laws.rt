// The laws of the grammar, each the contract of a function.
ghost use Rattle.std.specs.Prelude.{◌≡◌, ◌≤◌, ◌<◌, ℕ, false, List, ◌++◌, length, take, Some, Ok};
ghost use Rattle.std.specs.Prelude.{IsErr};
ghost use Rattle.std.specs.List.{list_any};
ghost use Rattle.y4m_io.specs.Lines.{is_newline};
ghost use Rattle.y4m_io.specs.HeaderLine.{HeaderLine, header_cut};
ghost use Rattle.y4m_io.specs.FrameLine.{frame_line_cut};
ghost use Rattle.y4m_io.specs.Examples.{WorkedLines, WorkedTexts};

/// Some lines that are read.
pub fn worked_lines()
    ensures { WorkedLines }
{}

/// Some header lines that are written.
pub fn worked_texts()
    ensures { WorkedTexts }
{}

/// A header line has a byte or more, and no more than there are; it is the same header whatever
/// follows it; a front of the bytes that ends inside it is no header, and so is one without a
/// newline.
pub fn header_line_is_alone()
    ensures size { (bytes : List ℕ) (line : HeaderLine)
        → header_cut bytes ≡ Ok line → (1 ≤ line.size) × (line.size ≤ length bytes) }
    ensures alone { (bytes rest : List ℕ) (line : HeaderLine)
        → header_cut bytes ≡ Ok line → header_cut (take line.size bytes ++ rest) ≡ Ok line }
    ensures inside { (bytes : List ℕ) (line : HeaderLine) (n : ℕ)
        → header_cut bytes ≡ Ok line → n < line.size → IsErr (header_cut (take n bytes)) }
    ensures unfinished { (front rest : List ℕ) (line : HeaderLine)
        → list_any is_newline front ≡ false → header_cut (front ++ rest) ≡ Ok line
        → length front < line.size }
{}

/// A frame line has a byte or more, and no more than there are; it is the same whatever follows
/// it; a front of the bytes that ends inside it, behind its first byte, is no frame line, and so
/// is one without a newline.
pub fn frame_line_is_alone()
    ensures size { (bytes : List ℕ) (size : ℕ)
        → frame_line_cut bytes ≡ Ok (Some size) → (1 ≤ size) × (size ≤ length bytes) }
    ensures alone { (bytes rest : List ℕ) (size : ℕ)
        → frame_line_cut bytes ≡ Ok (Some size)
        → frame_line_cut (take size bytes ++ rest) ≡ Ok (Some size) }
    ensures inside { (bytes : List ℕ) (size n : ℕ)
        → frame_line_cut bytes ≡ Ok (Some size) → 0 < n → n < size
        → IsErr (frame_line_cut (take n bytes)) }
    ensures unfinished { (front rest : List ℕ) (size : ℕ) → list_any is_newline front ≡ false
        → frame_line_cut (front ++ rest) ≡ Ok (Some size) → length front < size }
{}
