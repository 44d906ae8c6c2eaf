//! Chunks of codes.

ghost use Rattle.std.specs.Prelude.{◌≡◌, map, nat_le, if◌then◌else◌, IsTrue, IfOk};
ghost use Rattle.vx_model.specs.declared.ptype.PType.TheVariants.{U8, U16};
ghost use Rattle.vx_model.specs.Words.{all_by};
ghost use Rattle.vx_model.specs.TyView.{ty};
ghost use Rattle.vx_model.specs.TreeView.{tree};
ghost use Rattle.vx_rules.specs.Columns.{offset_cell};
ghost use Rattle.vx_rules.specs.Runs.{code_type, codes_piece};
ghost use Rattle.vx_strategy_options.specs.OptionViews.{dict_options};
ghost use Rattle.vx_runs.specs.Cutting.{is_code_of};

use std::alloc::{AllocError, Global};
use vx_chunk::Chunk;
use vx_model::{Cell, DType, Nullability, PType};
use vx_strategy_options::DictLayoutConstraints;

/// The codes as a plain chunk of the type that the greatest number of cells needs. Takes time by the codes.
#[tactic(auto, using(crate::proofs::CodeSteps::code_rules))]
pub fn codes_chunk(
    alloc: Global,
    limits: DictLayoutConstraints,
    codes: &[u64],
) -> Result<Chunk, AllocError>
    requires { IsTrue (all_by (is_code_of (dict_options limits 0)) codes.now) }
    ensures { IfOk result (λ c. c ≡ codes_piece (dict_options limits 0) codes.now) }
{
    let cells = code_cells(alloc, codes)?;
    Ok(Chunk::typed(alloc, code_dtype(limits), cells)?)
}

/// The type of codes, by the greatest number of cells.
fn code_dtype(limits: DictLayoutConstraints) -> DType
    ensures { ty result ≡ code_type (dict_options limits 0) }
{
    DType::Primitive(code_ptype(limits), Nullability::NonNullable)
}

/// One byte where the limit is at most 255 cells, else two.
pub fn code_ptype(limits: DictLayoutConstraints) -> PType
    ensures { result ≡ (if nat_le limits.max_len 255 then U8 else U16) }
{
    if limits.max_len <= 255 {
        PType::U8
    } else {
        PType::U16
    }
}

#[tactic(auto, using(crate::proofs::CodeSteps::code_rules))]
fn code_cells(alloc: Global, codes: &[u64]) -> Result<Vec<Cell>, AllocError>
    ensures { IfOk result (λ v. map tree v.items ≡ map offset_cell codes.now) }
{
    let mut cells = Vec::with_capacity(alloc, codes.len())?;
    for code in codes {
        cells.push(code_cell(*code))?;
    }
    Ok(cells)
}

fn code_cell(code: u64) -> Cell
    ensures { tree result ≡ offset_cell code }
{
    Cell::Int(i128::from(code))
}
