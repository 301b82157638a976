// From the texts of files to their design.
ghost use Rattle.std.specs.Prelude.{◌≡◌, ◌≤◌, ◌<◌, ◌+◌, ◌^◌, ◌++◌, List, IfOk, IfErr, OnOk, length, map, option_map};
ghost use Rattle.sv_tree.specs.Descriptions.{Description as Tree};
ghost use Rattle.sv_tree.specs.Lexing.{scales as scales_in};
ghost use Rattle.sv_tree.specs.UnitView.{description as file_tree};
ghost use Rattle.sv_simulate.specs.Source.{bytes_of, contents, IsParsed, IsUnread, AreParsed, FirstUnread, IsSource, IsDesign, Declines, Explains, scales_of, of_lexical, of_refusal, of_syntax, refusal_text, syntax_text};
ghost use Rattle.sv_simulate.specs.declared.front.FrontFault.TheVariants.{Memory};

use std::alloc::{AllocError, AllocFailed, Global};
use sv_built::{Design, is_built};
use sv_elab_design::elaborate;
use sv_lex::{LexFault, lex};
use sv_names::Refusal;
use sv_parse::{SyntaxFault, SyntaxKind};
use sv_parse_unit::parse;
use sv_tree::{Description, Refused, Timescale};
use sv_value::Place;
use thiserror::Error;

/// Why files have no design.
#[derive(Clone, Copy, Debug, PartialEq, Eq, Error)]
pub enum FrontFault {
    /// No token can be read at a place (IEEE 1800-2017, 5).
    #[error("{kind}")]
    Lexical { at: Place, kind: Refused },
    /// No file goes on with the token at a place, or only files that are too deep (A.1).
    #[error("{kind}")]
    Syntax { at: Place, kind: SyntaxKind },
    /// The first rule of the language that is broken, E1 to E58, and its place (docs/RULES.md).
    #[error("E{rule}")]
    Rule { rule: u8, at: Place },
    /// No rule is broken, and the design has forms that do not run today.
    #[error("not yet")]
    NotYet,
    /// Memory ran out.
    #[error("out of memory")]
    Memory,
}

impl From<AllocError> for FrontFault {
    ghost from_gives = { λ _ e. e ≡ Memory };

    fn from(_: AllocError) -> Self {
        FrontFault::Memory
    }
}

impl<T: Drop> From<AllocFailed<T>> for FrontFault {
    ghost from_gives = { λ _ e. e ≡ Memory };

    fn from(_: AllocFailed<T>) -> Self {
        FrontFault::Memory
    }
}

impl From<LexFault> for FrontFault {
    ghost from_gives = { λ fault e. e ≡ of_lexical fault };

    fn from(fault: LexFault) -> Self {
        match fault {
            LexFault::Memory => FrontFault::Memory,
            LexFault::Bad { at, kind } => FrontFault::Lexical { at, kind },
        }
    }
}

impl From<SyntaxFault> for FrontFault {
    ghost from_gives = { λ fault e. e ≡ of_syntax fault };

    fn from(fault: SyntaxFault) -> Self {
        match fault {
            SyntaxFault::Memory => FrontFault::Memory,
            SyntaxFault::Bad { at, kind } => FrontFault::Syntax { at, kind },
        }
    }
}

impl From<Refusal> for FrontFault {
    ghost from_gives = { λ refusal e. e ≡ of_refusal refusal };

    fn from(refusal: Refusal) -> Self {
        match refusal {
            Refusal::Memory => FrontFault::Memory,
            Refusal::Rule { rule, at } => FrontFault::Rule { rule, at },
        }
    }
}

/// What a lexical fault is called in the closing line.
pub fn refusal_text(kind: Refused) -> &'static str
    ensures { result.now ≡ refusal_text kind }
{
    match kind {
        Refused::BadByte => "bad byte",
        Refused::OpenText => "open text",
        Refused::OpenComment => "open comment",
        Refused::Literal => "bad literal",
        Refused::TooManyTokens => "too many tokens",
        Refused::Directive => "bad directive",
    }
}

/// What a syntax fault is called in the closing line.
pub fn syntax_text(kind: SyntaxKind) -> &'static str
    ensures { result.now ≡ syntax_text kind }
{
    match kind {
        SyntaxKind::Unexpected => "unexpected token",
        SyntaxKind::Depth => "too deep",
    }
}

/// Reads the text of the file with this number, and puts its units and time scales behind those of the files before.
fn read_text(
    alloc: Global,
    file: u16,
    text: &[u8],
    units: &mut Vec<Description>,
    scales: &mut Vec<Timescale>,
) -> Result<(), FrontFault>
    requires { length text.now ≤ 2 ^ 23 }
    ensures units { OnOk result ((us : List Tree) × IsParsed file text.now us
        × (map file_tree units.new.items ≡ map file_tree units.old.items ++ us)) }
    ensures scales { OnOk result (scales.new.items ≡ scales.old.items ++ scales_in file text.now) }
    ensures fault { IfErr result (IsUnread file text.now) }
{
    let mut lexed = lex(alloc, file, text)?;
    let mut parsed = parse(alloc, &lexed.tokens)?;
    units.append(&mut parsed)?;
    scales.append(&mut lexed.scales)?;
    Ok(())
}

/// Reads the texts of the files from this number on, one after another.
fn read_texts(
    alloc: Global,
    file: u16,
    texts: &[Vec<u8>],
    units: &mut Vec<Description>,
    scales: &mut Vec<Timescale>,
) -> Result<(), FrontFault>
    requires few { file + length texts.now < 2 ^ 16 }
    requires short { bytes_of (contents texts.now) ≤ 2 ^ 23 }
    ensures units { OnOk result ((us : List Tree) × AreParsed file (contents texts.now) us
        × (map file_tree units.new.items ≡ map file_tree units.old.items ++ us)) }
    ensures scales { OnOk result (scales.new.items ≡ scales.old.items ++ scales_of file (contents texts.now)) }
    ensures fault { IfErr result (FirstUnread file (contents texts.now)) }
{
    match texts {
        [] => Ok(()),
        [text, others @ ..] => {
            read_text(alloc, file, text, units, scales)?;
            read_texts(alloc, file + 1, others, units, scales)
        }
    }
}

/// The design of units under the one that is named or under all that are nowhere instantiated, or why they have none.
fn design_of(
    alloc: Global,
    scales: &[Timescale],
    units: &[Description],
    top: Option<&[u8]>,
) -> Result<Design, FrontFault>
    ensures design { IfOk result (λ d. IsDesign scales.now (map file_tree units.now) (option_map (λ x. x.now) top.entry) d) }
    ensures none { IfErr result (Declines scales.now (map file_tree units.now) (option_map (λ x. x.now) top.entry)) }
{
    let parts = elaborate(alloc, units, scales, top)?;
    if !is_built(&parts) {
        return Err(FrontFault::NotYet);
    }
    Ok(Design::new(parts))
}

/// The design of the texts of all files, in their order, under the unit that is named or under all that are nowhere instantiated, or why they have none.
pub fn read_design(
    alloc: Global,
    texts: &[Vec<u8>],
    top: Option<&[u8]>,
) -> Result<Design, FrontFault>
    requires few { length texts.now < 2 ^ 16 }
    requires short { bytes_of (contents texts.now) ≤ 2 ^ 23 }
    ensures design { IfOk result (λ d. IsSource (contents texts.now) (option_map (λ x. x.now) top.entry) d) }
    ensures fault { IfErr result (Explains (contents texts.now) (option_map (λ x. x.now) top.entry)) }
{
    let mut units = Vec::new(alloc);
    let mut scales = Vec::new(alloc);
    read_texts(alloc, 0, texts, &mut units, &mut scales)?;
    design_of(alloc, &scales, &units, top)
}
