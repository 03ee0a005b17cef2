//! What follows from the definition of a register's setting.

ghost use Rattle.std.specs.Prelude.{ℕ};
ghost use Rattle.house_model.specs.Naming.{HasNamesOf};
ghost use Rattle.house_model.specs.Register.{Register, registered_setting};

/// The setting of a register has the names of the register's applicants and persons, whatever its pairs.
pub fn setting_has_names()
    ensures { (seats clusters reviews : ℕ) (reg : Register)
        → HasNamesOf reg.applicants (registered_setting seats clusters reviews reg) }
{}
