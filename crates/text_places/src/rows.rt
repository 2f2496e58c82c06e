//! Worked rows of the definitions.

ghost use Rattle.text_places.specs.Rows as rows;

/// The places of a text's offsets, and how its lines are shown.
pub fn worked_places()
    ensures places { rows.Places }
    ensures with_tab { rows.WithTab }
    ensures not_printable { rows.NotPrintable }
    ensures cut { rows.Cut }
{}
