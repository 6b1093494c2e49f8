//! The text of a certificate piece by piece.

ghost use Rattle.cert_scan.specs.Pieces.{PiecesAreText};

/// The pieces of a certificate's text together are the text, and give its items.
pub fn pieces_are_text()
    ensures { PiecesAreText }
{}
