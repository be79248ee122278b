//! Laws of the glue text, for all modules.

ghost use Rattle.xs_stub.specs.Laws.{ReadBackLaw};

/// The written text of a module whose XSUBs are sums, read again, is the intended tree but for
/// lines. Its C part has only lines that are passed over.
pub fn written_text_reads_back()
    ensures { ReadBackLaw }
{}
