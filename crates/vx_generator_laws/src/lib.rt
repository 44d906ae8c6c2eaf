//! The generated table is valid input to its write.
//! The function here has an empty body; its contract is a law, proved for every number of rows.
#![tactic(auto)]

ghost use Rattle.vx_generator_laws.specs.TableWrite.{TableIsValid};

/// Nothing of the table is refused, and all numbers fit, so its write gives Ok unless memory runs out.
pub fn table_is_valid()
    ensures { TableIsValid }
{}
