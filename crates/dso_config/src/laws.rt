//! What the definitions of a configuration say together: a text has one configuration or one fault
//! (`specs/Configuration.antt`).

ghost use Rattle.std.specs.Prelude.{◌≡◌, ◌↔◌, ◌<◌, ℕ, List, length, Some};
ghost use Rattle.toml.specs.Data.{Members};
ghost use Rattle.dso_base.specs.declared.lock.Grade.{Grade};
ghost use Rattle.dso_config.specs.declared.config.Config.{Config};
ghost use Rattle.dso_config.specs.declared.fault.ConfigFault.{ConfigFault};
ghost use Rattle.dso_config.specs.Configuration.{HasAnswer, HasSpot, IsConfigurationOf, IsFaultOf, IsToml};
ghost use Rattle.dso_config.specs.Configuration.{most_bytes, table_fault};
ghost use Rattle.dso_config.specs.declared.fault.ConfigFault.TheVariants as fault;
ghost use Rattle.dso_config.specs.declared.pattern.Pattern.{Pattern};
ghost use Rattle.dso_config.specs.InRange.{IsInRange};
ghost use Rattle.dso_config.specs.Spelling.{IsPattern, grade_of, pattern_of, written_grade};

/// What is wrong with a table is told with a spot of it. So a text is TooLong only where it is, and NotToml only where it is no
/// TOML.
pub fn faults_of_tables()
    ensures spotted { (table : Members) (wrong : ConfigFault) → table_fault table ≡ Some wrong → HasSpot wrong }
    ensures too_long { (text : List ℕ) → IsFaultOf text fault.TooLong → most_bytes < length text }
    ensures not_toml { (text : List ℕ) → IsFaultOf text fault.NotToml → (table : Members) → IsToml text table → ⊥ }
{}

/// A text says one configuration, which is in range, or it has one fault; never both, and never neither.
pub fn one_answer()
    ensures one_configuration { (text : List ℕ) (config other : Config) → IsConfigurationOf text config → IsConfigurationOf text other → config ≡ other }
    ensures one_fault { (text : List ℕ) (wrong other : ConfigFault) → IsFaultOf text wrong → IsFaultOf text other → wrong ≡ other }
    ensures not_both { (text : List ℕ) (config : Config) (wrong : ConfigFault) → IsConfigurationOf text config → IsFaultOf text wrong → ⊥ }
    ensures some_answer { (text : List ℕ) → HasAnswer text }
    ensures in_range { (text : List ℕ) (config : Config) → IsConfigurationOf text config → IsInRange config }
{}

/// The pattern and the level that a text is read as are the ones that are written so, and there is no other.
pub fn read_as_written()
    ensures pattern { (text : List ℕ) (pattern : Pattern) → (pattern_of text ≡ Some pattern) ↔ IsPattern text pattern }
    ensures grade { (text : List ℕ) (grade : Grade) → (grade_of text ≡ Some grade) ↔ (text ≡ written_grade grade) }
{}
