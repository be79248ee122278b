//! The columns of the table of Perl's API.
use xs_values::Kind;

/// A row that stands in code with its operands. Plain data: texts and numbers of functions stand in
/// the nodes of the code.
#[derive(Clone, Copy, Debug, PartialEq, Eq)]
pub enum Row {
    /// `newSViv`
    NewSvIv,
    /// `newSVuv`
    NewSvUv,
    /// `newSV`
    NewSv,
    /// `newSVpv`
    NewSvPv,
    /// `newSVpvn`
    NewSvPvn,
    /// `newSVsv`
    NewSvSv,
    /// `newRV` and `newRV_inc`
    NewRv,
    /// `newRV_noinc`
    NewRvNoInc,
    /// `SvRV`
    SvRv,
    /// `SvTYPE`
    SvType,
    /// `sv_newmortal`
    SvNewMortal,
    /// `sv_2mortal`
    Sv2Mortal,
    /// `SvREFCNT_inc`
    SvRefCntInc,
    /// `SvREFCNT_dec`
    SvRefCntDec,
    /// `SvOK`
    SvOk,
    /// `SvROK`
    SvRok,
    /// `SvIOK`
    SvIok,
    /// `SvPOK`
    SvPok,
    /// `SvTRUE`
    SvTrue,
    /// `SvIV`
    SvIv,
    /// `SvUV`
    SvUv,
    /// `SvPV_nolen`
    SvPvNoLen,
    /// `strlen`
    StrLen,
    /// `strcmp`
    StrCmp,
    /// `strEQ`
    StrEq,
    /// `strNE`
    StrNe,
    /// `sv_setiv`
    SvSetIv,
    /// `sv_setuv`
    SvSetUv,
    /// `sv_setpv`
    SvSetPv,
    /// `sv_setpvn`
    SvSetPvn,
    /// `sv_setsv`
    SvSetSv,
    /// `sv_catpv`
    SvCatPv,
    /// `sv_catpvn`
    SvCatPvn,
    /// `newAV`
    NewAv,
    /// `av_len`
    AvLen,
    /// `av_fetch`
    AvFetch,
    /// `av_push`
    AvPush,
    /// `av_store`
    AvStore,
    /// `av_pop`
    AvPop,
    /// `av_shift`
    AvShift,
    /// `av_clear`
    AvClear,
    /// `newHV`
    NewHv,
    /// `hv_store`
    HvStore,
    /// `hv_fetch`
    HvFetch,
    /// `hv_exists`
    HvExists,
    /// `hv_delete`
    HvDelete,
    /// `sv_setref_pv`
    SvSetRefPv,
    /// `sv_bless`
    SvBless,
    /// `sv_isobject`
    SvIsObject,
    /// `sv_isa`
    SvIsA,
    /// `sv_derived_from`
    SvDerivedFrom,
    /// `PTR2IV`
    Ptr2Iv,
    /// `Safefree`
    SafeFree,
    /// `boolSV`
    BoolSv,
    /// `&PL_sv_undef`
    PlSvUndef,
    /// `&PL_sv_yes`
    PlSvYes,
    /// `&PL_sv_no`
    PlSvNo,
    /// `ERRSV`
    ErrSv,
    /// `dXSARGS`: the entry of an XS function.
    Entry,
    /// `ST(i)`
    StRead,
    /// `ST(i) = s`
    StSet,
    /// `XSRETURN`
    XsReturn,
    /// `XSRETURN_EMPTY`
    XsReturnEmpty,
    /// `XSRETURN_UNDEF`
    XsReturnUndef,
    /// `XSRETURN_YES`
    XsReturnYes,
    /// `XSRETURN_NO`
    XsReturnNo,
    /// The end of an XS function, and its `return`.
    XsEnd,
    /// `SP -= items`
    ResetStack,
    /// `XPUSHs`
    XPushS,
    /// `PUSHs`
    PushS,
    /// `mXPUSHs`
    MXPushS,
    /// `mXPUSHi`
    MXPushI,
    /// `mXPUSHu`
    MXPushU,
    /// `mXPUSHp`
    MXPushP,
    /// `EXTEND`
    Extend,
    /// `POPs`
    PopS,
    /// `POPi`
    PopI,
    /// `PUTBACK`
    PutBack,
    /// `SPAGAIN`
    SpAgain,
    /// `ENTER`
    Enter,
    /// `LEAVE`
    Leave,
    /// `SAVETMPS`
    SaveTmps,
    /// `FREETMPS`
    FreeTmps,
    /// `PUSHMARK`
    PushMark,
    /// `call_sv`
    CallSv,
    /// `call_pv`
    CallPv,
}

/// What stands in the code for a word.
#[derive(Clone, Copy, Debug, PartialEq, Eq)]
pub enum CodeForm {
    /// A row, which the machine runs.
    Row(Row),
    /// A row that the machine does not run yet.
    Unbuilt(Row),
    /// The text of a scalar, with the variable that gets its length.
    TextWithLength,
    /// A record's pointer that a number stands for.
    RecordOf,
    /// A new record in a variable.
    NewRecord,
    /// A croak, with its format.
    Croak,
    /// The croak for wrong use, with the text of the parameters.
    Usage,
    /// The registration of an XS function.
    Register,
    /// Nothing by itself: the word is a part of another row's operand.
    Operand,
}

/// The type of an operand or of a result.
#[derive(Clone, Copy, Debug, PartialEq, Eq)]
pub enum ApiType {
    /// An integer of a kind. Every kind goes into it, by C's conversion.
    Number(Kind),
    /// An integer of any kind, which keeps its kind.
    Integer,
    /// `SV *`
    Scalar,
    /// `AV *`
    Array,
    /// `HV *`
    Hash,
    /// `SV **`
    Place,
    /// `char *`
    Text,
    /// A pointer to a record of C.
    Record,
    /// `void *`, as a cast to it makes of a pointer to a record.
    UntypedPointer,
    /// `void`
    Void,
    /// The integer `0`, spelt so.
    Zero,
    /// The integer `1`, spelt so.
    One,
    /// A literal text.
    Literal,
    /// A literal text that says how the operands after it are written (perlapi, `croak`).
    Format,
    /// `gv_stashpv` of a literal text.
    Stash,
    /// The stack pointer, by its word.
    StackPointer,
    /// The function that runs, by its word.
    Cv,
    /// The number of arguments, by its word.
    ItemCount,
    /// The flag of a call that gives nothing, by its word.
    Discard,
    /// The flag by which a package is made where there is none, by its word.
    AddGlob,
    /// A variable of type `STRLEN`, by its name. The row writes it.
    LengthVariable,
    /// A variable that is a pointer to a record, by its name. The row writes it.
    RecordVariable,
    /// A record, by its name.
    RecordName,
    /// The type of a pointer to a record.
    RecordPointer,
    /// An XS function, by its name.
    XsFunction,
}

/// How a word is written.
#[derive(Clone, Copy, Debug, PartialEq, Eq)]
pub enum Written {
    /// As a call of a function: the word and its operands in parentheses.
    Call,
    /// As such a call that is an operand of a row, and stands nowhere else.
    Operand,
    /// As a statement of its own.
    Statement,
    /// As what is assigned to.
    Assignment,
    /// As a name alone.
    Name,
    /// As a name with `&` in front.
    Address,
}

/// Where a word may stand.
#[derive(Clone, Copy, Debug, PartialEq, Eq)]
pub enum Stands {
    /// In any function.
    Anywhere,
    /// In XS functions.
    InXsFunctions,
    /// In XS functions that begin with `dXSARGS; dXSI32;`.
    AfterIndex,
    /// In the boot function.
    InBootFunction,
    /// At the beginning of an XS function.
    AtEntry,
}

/// What a row may do to what its caller holds.
#[derive(Clone, Copy, Debug, PartialEq, Eq)]
pub enum Mark {
    /// It may croak.
    Croaks,
    /// It sets a scalar: the texts of scalars are good no more.
    Sets,
    /// It may release scalars: places, and what is borrowed, are good no more.
    Releases,
    /// It moves the places of an array, a hash or the argument stack.
    MovesPlaces,
    /// It owns an operand in the caller's place from then on; operands are numbered from 1.
    GivesUp(u8),
}

/// Who owns the result (perlguts, "Reference Counts and Mortality").
#[derive(Clone, Copy, Debug, PartialEq, Eq)]
pub enum ResultState {
    /// There is none, or it is a number or a pointer to a record.
    None,
    /// The caller owns one count.
    Own,
    /// The caller owns the one count of a new thing, which nothing else refers to.
    OwnFresh,
    /// A temporary.
    Mortal,
    /// A temporary that is new.
    MortalFresh,
    /// The operand, with one count more, which the caller owns.
    Shared,
    /// It lives as long as what it was got from.
    Borrowed,
    /// The text of a scalar.
    Text,
    /// The place of an element.
    Place,
    /// It is always there.
    Immortal,
    /// An item of the argument stack.
    Argument,
    /// As its operand is. The argument stack owns nothing, so the operand has to be mortal, an
    /// argument or an immortal.
    Held,
    /// As its operand is.
    Same,
}
