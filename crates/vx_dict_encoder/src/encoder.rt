//! The encoder.

ghost use Rattle.std.specs.Prelude.{◌≡◌, [], false, length, IsTrue, IfOk, IfErr, OnOk, OnErr};
ghost use Rattle.vx_model.specs.Words.{all_by};
ghost use Rattle.vx_model.specs.CellData.{fits};
ghost use Rattle.vx_model.specs.Ty.{primitive};
ghost use Rattle.vx_model.specs.ChunkData.{piece_type, plain_piece, is_dict_type, cells as cells_in};
ghost use Rattle.vx_model.specs.TyView.{ty};
ghost use Rattle.vx_rules.specs.Runs.{code_type, codes_piece};
ghost use Rattle.vx_strategy_options.specs.OptionViews.{dict_options};
ghost use Rattle.vx_runs.specs.Cutting.{Standing};
ghost use Rattle.vx_dict_encoder.specs.Front.{front};
ghost use Rattle.vx_dict_encoder.specs.EncoderData.{encoder_view, with_distinct, options_of, front_at};

use crate::front::{Values, chunk_front};
use std::alloc::Global;
use std::marker::Model;
use std::mem;
use vx_chunk::{Chunk, ChunkError};
use vx_model::{DType, PType};
use vx_runs::{code_ptype, codes_chunk};
use vx_strategy_options::DictLayoutConstraints;

/// A dictionary that is filled row by row. Contracts see its distinct cells, in order of first occurrence.
#[derive(Drop)]
pub struct DictEncoder {
    dtype: DType,
    constraints: DictLayoutConstraints,
    values: Values,
}

impl Model for DictEncoder {
    ghost use Rattle.vx_dict_encoder.specs.EncoderData.{EncoderData, encoder_code};

    ghost Value = { EncoderData };

    ghost coded = { encoder_code };

    ghost use Rattle.vx_model.specs.TyView.{ty};
    ghost use Rattle.vx_strategy_options.specs.OptionViews.{dict_options};
    ghost use Rattle.vx_dict_encoder.specs.EncoderData.{encoder_view};
    ghost use Rattle.vx_runs.specs.Cutting.{Standing};

    ghost view = { λ e. encoder_view e.dtype e.constraints e.values.distinct };

    ghost invariant = { λ e. Standing (dict_options e.constraints 0) (ty e.dtype) e.values.distinct e.values.cost };
}

impl DictEncoder {
    /// A dictionary without cells; takes no memory. `vx_strategy::dict_layout_supported` tests the condition.
    pub fn new(alloc: Global, constraints: DictLayoutConstraints, dtype: DType) -> DictEncoder
        requires { IsTrue (is_dict_type (ty dtype)) }
        ensures { result ≡ encoder_view dtype constraints [] }
    {
        DictEncoder {
            dtype,
            constraints,
            values: Values::none(alloc),
        }
    }

    /// The codes of the longest front of the rows with which the distinct cells fit, as a plain chunk, and how many rows
    /// it has; its cells stand in the dictionary then. Takes time by the rows. Those that are held as a column are looked
    /// at where they are; only what is new to the dictionary is copied. After an error the dictionary has no cells.
    #[tactic(auto, using(crate::proofs::Encoders::encode_rules))]
    pub fn encode(&mut self, alloc: Global, rows: &Chunk) -> Result<(Chunk, u64), ChunkError>
        requires { piece_type rows.now ≡ self.old.typed }
        ensures codes { IfOk result (λ r. r.0 ≡ codes_piece (options_of self.old) (front_at self.old rows.now).0) }
        ensures count { IfOk result (λ r. r.1 ≡ length (front_at self.old rows.now).0) }
        ensures holds { OnOk result (self.new ≡ with_distinct self.old (front_at self.old rows.now).1) }
        ensures err { OnErr result (self.new ≡ with_distinct self.old []) }
        ensures memory { IfErr result (λ e. e ≡ ChunkError.OutOfMemory) }
    {
        rows.sound();
        let values = mem::replace(&mut self.values, Values::none(alloc));
        let encoded = take_front(alloc, &self.dtype, self.constraints, values, rows)?;
        self.values = encoded.values;
        Ok((encoded.codes, encoded.count))
    }

    /// The distinct cells as a plain chunk, none copied; none is left. After an error they are as before.
    #[tactic(auto, using(crate::proofs::Encoders::reset_rules))]
    pub fn reset(&mut self, alloc: Global) -> Result<Chunk, ChunkError>
        ensures values { IfOk result (λ c. c ≡ plain_piece self.old.typed self.old.distinct) }
        ensures empties { OnOk result (self.new ≡ with_distinct self.old []) }
        ensures err { OnErr result (self.new ≡ self.old) }
        ensures memory { IfErr result (λ e. e ≡ ChunkError.OutOfMemory) }
    {
        let dtype = self.dtype.clone()?;
        let full = mem::replace(&mut self.values, Values::none(alloc));
        Ok(Chunk::plain(dtype, full.distinct.into_cells()))
    }

    /// The type of the codes: one byte where the limit is at most 255 cells, else two, however many there are.
    #[tactic(auto, using(crate::proofs::Encoders::ptype_rules))]
    pub fn codes_ptype(&self) -> PType
        ensures { primitive result false ≡ code_type (options_of self.now) }
    {
        code_ptype(self.constraints)
    }
}

/// A front, and what the dictionary holds behind it.
#[derive(Drop)]
struct Encoded {
    codes: Chunk,
    count: u64,
    values: Values,
}

fn take_front(
    alloc: Global,
    dtype: &DType,
    limits: DictLayoutConstraints,
    mut values: Values,
    rows: &Chunk,
) -> Result<Encoded, ChunkError>
    requires standing { Standing (dict_options limits 0) (ty dtype.now) values.distinct values.cost }
    requires fit { IsTrue (all_by (fits (ty dtype.now)) (cells_in rows.now)) }
    ensures codes { IfOk result (λ r. r.codes ≡ codes_piece (dict_options limits 0) (front (dict_options limits 0) (ty dtype.now) values.distinct (cells_in rows.now)).0) }
    ensures count { IfOk result (λ r. r.count ≡ length (front (dict_options limits 0) (ty dtype.now) values.distinct (cells_in rows.now)).0) }
    ensures distinct { IfOk result (λ r. r.values.distinct ≡ (front (dict_options limits 0) (ty dtype.now) values.distinct (cells_in rows.now)).1) }
    ensures standing { IfOk result (λ r. Standing (dict_options limits 0) (ty dtype.now) r.values.distinct r.values.cost) }
    ensures memory { IfErr result (λ e. e ≡ ChunkError.OutOfMemory) }
{
    let codes = chunk_front(&mut values, alloc, dtype, limits, rows)?;
    let count = codes.len() as u64;
    let codes = codes_chunk(alloc, limits, &codes)?;
    Ok(Encoded {
        codes,
        count,
        values,
    })
}
