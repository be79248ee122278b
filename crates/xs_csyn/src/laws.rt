//! Laws of the grammar, for all tokens.
ghost use Rattle.xs_csyn.specs.Laws.{ArgumentsCompleteLaw, ArgumentsDeepLaw, ArgumentsSoundLaw, BlockCompleteLaw, BlockDeepLaw, BlockSoundLaw, BlockUniqueLaw, ExprCompleteLaw, ExprDeepLaw, ExprSoundLaw, ExprUniqueLaw, FileCompleteLaw, FileDeepLaw, FileSoundLaw, FileUniqueLaw, FileUnreadLaw, TurnsLaw};
ghost use Rattle.xs_csyn.specs.FaultPlaces.{ArgumentsFaultLaw, BlockFaultLaw, ExprFaultLaw, FileFaultLaw, FillerLaw};
ghost use Rattle.xs_csyn.specs.TokenTexts.{TokensSpeltLaw};

/// What is read is in the grammar, and no deeper than it may be.
pub fn sound_law()
    ensures files { FileSoundLaw }
    ensures blocks { BlockSoundLaw }
    ensures exprs { ExprSoundLaw }
    ensures arguments { ArgumentsSoundLaw }
{}

/// What is in the grammar, and no deeper than it may be, is read.
pub fn complete_law()
    ensures files { FileCompleteLaw }
    ensures blocks { BlockCompleteLaw }
    ensures exprs { ExprCompleteLaw }
    ensures arguments { ArgumentsCompleteLaw }
{}

/// What is in the grammar, however deep, is read, or refused as nested too deep.
pub fn deep_law()
    ensures files { FileDeepLaw }
    ensures unread { FileUnreadLaw }
    ensures blocks { BlockDeepLaw }
    ensures exprs { ExprDeepLaw }
    ensures arguments { ArgumentsDeepLaw }
{}

/// No tokens have two readings.
pub fn unique_law()
    ensures files { FileUniqueLaw }
    ensures blocks { BlockUniqueLaw }
    ensures exprs { ExprUniqueLaw }
{}

/// The loops of the reader end before their turns do: each turn consumes a token, so that further
/// turns change nothing.
#[tactic(auto, using(crate::proofs::MoreTurns::turns_law))]
pub fn turns_law()
    ensures { TurnsLaw }
{}

/// Where tokens are not read as an expression, the fault is at one token: the tokens before it
/// begin an expression, and nothing that is read begins with them and with it.
#[tactic(auto, using(crate::proofs::ExpressionPlaces::expr_fault_law))]
pub fn expr_fault_law()
    ensures { ExprFaultLaw }
{}

/// The same of tokens that are not read as the arguments of a call.
#[tactic(auto, using(crate::proofs::ArgumentPlaces::arguments_fault_law))]
pub fn arguments_fault_law()
    ensures { ArgumentsFaultLaw }
{}

/// The same of tokens that are not read as what stands in a block.
#[tactic(auto, using(crate::proofs::BlockPlaces::block_fault_law))]
pub fn block_fault_law()
    ensures { BlockFaultLaw }
{}

/// The same of a file that is not read: the grammar looks at no token after the next one, and finds
/// a fault at the first token with which no file within the bounds goes on.
#[tactic(auto, using(crate::proofs::FilePlaces::file_fault_law))]
pub fn file_fault_law()
    ensures { FileFaultLaw }
{}

/// The tokens of a text are spelt as tokens are: a word begins as a word does, and a punctuator
/// does not. Where the laws on the place of a fault ask this of tokens, each text meets it.
#[tactic(auto, using(crate::proofs::TokensSpelt::tokens_spelt_law))]
pub fn tokens_are_spelt_law()
    ensures { TokensSpeltLaw }
{}

/// There is a name to complete a text with that stands nowhere in it.
#[tactic(auto, using(crate::proofs::Fillers::filler_law))]
pub fn filler_law()
    ensures { FillerLaw }
{}
