//! What the definitions of the grammar say: which texts are programs, of which tree (`specs/SyntaxFaults.antt`).

ghost use Rattle.std.specs.Prelude.{◌≡◌, ◌↔◌, ℕ, [], Ok};
ghost use Rattle.dso_tokens.specs.Bytes.{Text};
ghost use Rattle.dso_syntax.specs.Grammar.{Tokens};
ghost use Rattle.dso_syntax.specs.ProgramGrammar.{IsProgram};
ghost use Rattle.dso_syntax.specs.SyntaxFaults.{IsText, HasFault};
ghost use Rattle.dso_syntax.specs.ProgramReader.{program};
ghost use Rattle.dso_syntax.specs.declared.tree.Ast.{Ast};
ghost use Rattle.dso_syntax.specs.declared.fault.SyntaxFault.{SyntaxFault};

/// A text has at most one tree.
pub fn one_tree()
    ensures texts { (text : Text) (ast other : Ast) → IsText text ast → IsText text other → ast ≡ other }
    ensures tokens { (levels : ℕ) (tokens : Tokens) (ast other : Ast)
        → IsProgram levels tokens ast → IsProgram levels tokens other → ast ≡ other }
{}

/// A reader that goes from token to token reads exactly the programs of the grammar, each as its tree.
pub fn read_exactly()
    ensures { (levels : ℕ) (tokens : Tokens) (ast : Ast)
        → IsProgram levels tokens ast
        ↔ (program levels tokens ≡ Ok (ast.items, record { tokens = []; room = levels })) }
{}

/// A text has at most one fault.
pub fn one_fault()
    ensures { (text : Text) (one other : SyntaxFault) → HasFault text one → HasFault text other → one ≡ other }
{}
