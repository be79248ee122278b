//! The top call.
ghost use Rattle.std.specs.Option.{ForSome};
ghost use Rattle.std.specs.Prelude.{◌≡◌, ◌≢◌, ◌⊎◌, None};
ghost use Rattle.xs_base.specs.Causes.{Rose};
ghost use Rattle.xs_base.specs.Sinks.{AppendsPrefix};
ghost use Rattle.xs_call.specs.Laws.{EachTextLeavesNothing, EachTextRunsAsDeclared};
ghost use Rattle.xsubpp.specs.Answers.{Ends, EndsByReads, IsOut, IsStatus, answer, usage, usage_text};
ghost use Rattle.xsubpp.specs.FaultyFiles.{HasFaultyFile};
ghost use Rattle.xsubpp.specs.Lacking.{LacksFile};
ghost use Rattle.xsubpp.specs.Reads.{PrefixByReads};
ghost use Rattle.xsubpp.specs.CommandLine.{command_of};
ghost use Rattle.xsubpp.specs.Written.{IsGranted, Wrote, WroteByReads};

use crate::command_line::read_words;
use crate::file_reading::answer_to;
use crate::status::Status;
use std::alloc::Global;
use xs_base::{Bytes, Desk, Memory, Sink, put_all};

/// What is reported of the words where they are no command.
pub const USAGE: &[u8] =
    b"usage: xsubpp compile FILE [TYPEMAP]\n       xsubpp call FILE SCRIPT [TYPEMAP]\n       xsubpp run TEXT SCRIPT\n       xsubpp check FILE [TYPEMAP]\n       xsubpp example N\n";

/// No file has more bytes.
pub const FILE_LIMIT: u32 = 1_048_576;

/// Runs the command that the words are: reads the files, does the job, and writes the text on
/// `out`, or what is wrong on `err`.
///
/// The words decide first, then the files in the order of the words, then the first fault of the XS
/// file, then that of the script, and last the writing. Running out of memory has no cause that a
/// contract says.
#[tactic(auto, using(xs_call::proofs::JobsJoin::text_runs, xs_call::proofs::JobsJoin::text_leaves_nothing))]
pub fn xsubpp<D: Desk, O: Sink, E: Sink>(
    alloc: Global,
    words: &[Bytes],
    desk: &mut D,
    out: &mut O,
    err: &mut E,
) -> Status
    // Over a desk whose files are known, these three come with what the definition of the answer
    // gives.
    ensures done { result ≡ Status.Done → ForSome (D.files desk.old) (λ files.
        Ends (answer words.now files) Status.Done (O.written out.old) (O.written out.new)
        (E.written err.old) (E.written err.new)) }
    ensures refused { result ≡ Status.Refused → ForSome (D.files desk.old) (λ files.
        Ends (answer words.now files) Status.Refused (O.written out.old) (O.written out.new)
        (E.written err.old) (E.written err.new)) }
    ensures missing { result ≡ Status.Missing → ForSome (D.files desk.old) (λ files.
        Ends (answer words.now files) Status.Missing (O.written out.old) (O.written out.new)
        (E.written err.old) (E.written err.new)) }

    // Over any desk, what is written is the answer by what some reads gave.
    ensures done_by_reads { result ≡ Status.Done →
        EndsByReads words.now Status.Done (O.written out.old) (O.written out.new)
        (E.written err.old) (E.written err.new) }
    ensures refused_by_reads { result ≡ Status.Refused →
        EndsByReads words.now Status.Refused (O.written out.old) (O.written out.new)
        (E.written err.old) (E.written err.new) }
    ensures missing_by_reads { result ≡ Status.Missing →
        EndsByReads words.now Status.Missing (O.written out.old) (O.written out.new)
        (E.written err.old) (E.written err.new) }

    ensures read_fault_by_reads { result ≡ Status.ReadFault →
        EndsByReads words.now Status.ReadFault (O.written out.old) (O.written out.new)
        (E.written err.old) (E.written err.new) }

    // The words alone decide on this one.
    ensures usage { result ≡ Status.Usage → (command_of words.now ≡ None)
        × Ends usage Status.Usage (O.written out.old) (O.written out.new) (E.written err.old)
        (E.written err.new) }
    ensures usage_exact { command_of words.now ≡ None
        → (result ≡ Status.Usage) ⊎ (result ≡ Status.WriteFault) }

    // A fault of an edge comes only where its count rose.
    ensures read_fault { result ≡ Status.ReadFault
        → Rose (D.fault_count desk.old) (D.fault_count desk.new) }
    ensures write_fault { result ≡ Status.WriteFault →
        Rose (O.fault_count out.old) (O.fault_count out.new)
        ⊎ Rose (E.fault_count err.old) (E.fault_count err.new) }

    // What is written otherwise.
    ensures untouched { result ≢ Status.Done → result ≢ Status.WriteFault
        → O.written out.new ≡ O.written out.old }
    ensures prefix { result ≡ Status.WriteFault → ForSome (D.files desk.old) (λ files.
        AppendsPrefix (O.written out.old) (O.written out.new) (answer words.now files).out) }
    ensures prefix_by_reads { result ≡ Status.WriteFault
        → PrefixByReads words.now (O.written out.old) (O.written out.new) }
    ensures memory { result ≡ Status.Memory → E.written err.new ≡ E.written err.old }

    // Where no edge failed, the status is the definition's, if memory was found.
    ensures complete { ForSome (D.files desk.old)
        (λ files. ¬ Rose (D.fault_count desk.old) (D.fault_count desk.new)
        → ¬ Rose (O.fault_count out.old) (O.fault_count out.new)
        → ¬ Rose (E.fault_count err.old) (E.fault_count err.new)
        → (result ≡ (answer words.now files).status) ⊎ (result ≡ Status.Memory)) }

    // Where no read failed, it is so but for a line that could not be written.
    ensures decided { ForSome (D.files desk.old)
        (λ files. ¬ Rose (D.fault_count desk.old) (D.fault_count desk.new)
        → IsStatus (answer words.now files).status result) }

    // A file is missing exactly where a named file is lacking, and no earlier one is longer than
    // the limit.
    ensures lacking { result ≡ Status.Missing
        → ForSome (D.files desk.old) (λ files. LacksFile (command_of words.now) files) }
    ensures missing_exact { ForSome (D.files desk.old)
        (λ files. ¬ Rose (D.fault_count desk.old) (D.fault_count desk.new)
        → LacksFile (command_of words.now) files → IsStatus Status.Missing result) }

    // A file is refused exactly where a named file is too long, and no earlier one is lacking or
    // too long; or all are there within the limit, and the XS file has a fault, or the script has
    // one where the XS file has none.
    ensures faulty { result ≡ Status.Refused
        → ForSome (D.files desk.old) (λ files. HasFaultyFile (command_of words.now) files) }
    ensures faulty_exact { ForSome (D.files desk.old)
        (λ files. ¬ Rose (D.fault_count desk.old) (D.fault_count desk.new)
        → HasFaultyFile (command_of words.now) files → IsStatus Status.Refused result) }

    // The text is out exactly where the files are there and all that is read is accepted, and then
    // it is what the interface declares.
    ensures written { result ≡ Status.Done
        → ForSome (D.files desk.old) (λ files. Wrote words.now files (O.written out.old)
        (O.written out.new)) }
    ensures granted { ForSome (D.files desk.old)
        (λ files. ¬ Rose (D.fault_count desk.old) (D.fault_count desk.new)
        → IsGranted words.now files → IsStatus Status.Done result) }
    ensures written_by_reads { result ≡ Status.Done
        → WroteByReads words.now (O.written out.old) (O.written out.new) }

    // Whatever the XS file and the script: the C text that is written, read and run, does what the
    // file declares, and leaves nothing after.
    ensures text { EachTextRunsAsDeclared }
    ensures exact { EachTextLeavesNothing }
{
    let Some(command) = read_words(words) else {
        return finish(Status::Usage, b"", usage_text(), out, err);
    };
    match answer_to(alloc, desk, command) {
        Ok(a) => finish(a.status, a.out.as_slice(), a.err.as_slice(), out, err),
        Err(Memory) => Status::Memory,
    }
}

// The bytes of the usage.
fn usage_text() -> &'static [u8]
    ensures { result.now ≡ usage_text }
{
    USAGE
}

// Writes an answer.
fn finish<O: Sink, E: Sink>(
    status: Status,
    out_text: &[u8],
    err_text: &[u8],
    out: &mut O,
    err: &mut E,
) -> Status
    requires { status ≢ Status.WriteFault }
    ensures is_out { IsOut (record { status = status; out = out_text.now; err = err_text.now })
        result
        (O.written out.old) (O.written out.new) (E.written err.old) (E.written err.new) }
    ensures prefix { AppendsPrefix (O.written out.old) (O.written out.new) out_text.now }
    ensures cause { result ≡ Status.WriteFault →
        Rose (O.fault_count out.old) (O.fault_count out.new)
        ⊎ Rose (E.fault_count err.old) (E.fault_count err.new) }
{
    if put_all(out, out_text).is_err() {
        return Status::WriteFault;
    }
    if put_all(err, err_text).is_err() {
        return Status::WriteFault;
    }
    status
}
