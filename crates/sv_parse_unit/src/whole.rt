// Reading the tokens of a file.
ghost use Rattle.std.specs.Prelude.{List, [], IfOk};
ghost use Rattle.sv_grammar.specs.Language.{Reads};
ghost use Rattle.sv_tree.specs.Closed.{IsClosed};
ghost use Rattle.sv_tree.specs.Codes.{toks};
ghost use Rattle.sv_tree.specs.Depth.{most_depth};
ghost use Rattle.sv_tree.specs.Descriptions as descriptions;
ghost use Rattle.sv_tree.specs.Grammar.{texts_of};
ghost use Rattle.sv_tree.specs.UnitGrammar as grammar;
ghost use Rattle.sv_tree.specs.UnitView as view;
ghost use Rattle.sv_parse.specs.Outcome.{seen};
ghost use Rattle.sv_parse_unit.specs.Files.{AnswersUnits, TellsFault};

use crate::descriptions::file;
use std::alloc::Global;
use sv_parse::{Budget, SyntaxFault, fault_of};
use sv_tree::{Description, Token};

/// Reads the descriptions that the tokens of a file spell (IEEE 1800-2017, A.1.2). The last token, and no other, is the end of the text.
///
/// The run is the longest list of tokens, from the first on, that begins a file no tree of which is deeper than 200. Where some deeper
/// file begins with the run and the token after it, the answer is `Depth` at that token. Where not, and the run is a file, the answer is
/// its descriptions. Otherwise the answer is `Unexpected` at that token.
pub fn parse(alloc: Global, tokens: &[Token]) -> Result<Vec<Description>, SyntaxFault>
    requires { IsClosed (toks tokens.now) }
    ensures units { IfOk result (λ v. Reads (texts_of grammar.file) most_depth (toks tokens.now) (seen view.description v) []) }
    ensures only { (ds : List descriptions.Description) → Reads (texts_of grammar.file) most_depth (toks tokens.now) ds [] → AnswersUnits ds result }
    ensures fault { TellsFault most_depth (toks tokens.now) result }
{
    match file(alloc, tokens, Budget::whole()) {
        Ok((descriptions, _)) => Ok(descriptions),
        Err(error) => Err(fault_of(error)),
    }
}
