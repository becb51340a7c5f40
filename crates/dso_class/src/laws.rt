//! What the definitions of the names say together: a text is one program or has one fault (`specs/OneProgram.antt`).

ghost use Rattle.std.specs.Prelude.{◌≡◌, ℕ};
ghost use Rattle.dso_config.specs.declared.config.Config.{Config};
ghost use Rattle.dso_syntax.specs.declared.tree.Ast.{Ast};
ghost use Rattle.dso_class.specs.declared.fault.NameKind.{NameKind};
ghost use Rattle.dso_class.specs.declared.program.Program.{Program};
ghost use Rattle.dso_class.specs.NameFaults.{IsFirstFault};
ghost use Rattle.dso_class.specs.OneProgram.{HasOneProgram};
ghost use Rattle.dso_class.specs.TextProgram.{IsProgramOf};

/// At most one fault is the first one of a text, and a text that is a program has none and is no other program.
pub fn one_answer()
    ensures one_fault { (config : Config) (ast : Ast) (kind other : NameKind) (line at : ℕ)
        → IsFirstFault config ast kind line
        → IsFirstFault config ast other at
        → (kind ≡ other) × (line ≡ at) }
    ensures no_fault { (config : Config) (ast : Ast) (program : Program) (kind : NameKind) (line : ℕ)
        → IsProgramOf config ast program
        → IsFirstFault config ast kind line
        → ⊥ }
    ensures one_program { (config : Config) (tree : Ast) → HasOneProgram config tree }
{}
