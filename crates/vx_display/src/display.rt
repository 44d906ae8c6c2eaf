//! The whole texts.

ghost use Rattle.std.specs.Prelude.{◌≡◌, ◌++◌, [], codes, IfOk};
ghost use Rattle.vx_layout_tree.specs.ErrorNames.{error_name};
ghost use Rattle.vx_layout_tree.specs.LayoutView.{layout_data};
ghost use Rattle.vx_layout_codec_spec.specs.Permitted.{built as all_built};
ghost use Rattle.vx_display.specs.Lengths.{first_fault};
ghost use Rattle.vx_display.specs.Text.{tree_text};
ghost use Rattle.vx_display.specs.Views.{map_of, style as seen, Faults};

use crate::building::check_built;
use crate::style::{Stop, Style};
use crate::tree::push_tree;
use std::alloc::{AllocError, Global};
use std::fmt::{self, Formatter, Write};
use std::marker::Model;
use vx_layout_tree::{Layout, LayoutError};
use vx_model::Text;
use vx_segment_map::{ReadError, SegmentMap};

/// The text of a layout's tree: a line a node, in pre-order, each ended by a newline. A tree that can't be built is one
/// line that names the first refusal.
pub trait LayoutDisplay {
    ghost use Rattle.std.specs.Prelude.{◌≡◌, ℕ, IfOk, false};
    ghost use Rattle.vx_layout_spec.specs.LayoutTree.{LayoutData};
    ghost use Rattle.vx_segment_map.specs.SegmentView.{segment_in};
    ghost use Rattle.vx_display.specs.Text.{display_text, display_with};
    ghost use Rattle.vx_display.specs.Views.{GivesText};

    // The layout that is shown.
    ghost shown: { Self → LayoutData ℕ };

    /// Without rows, metadata and segments of other layouts than flat ones.
    fn display_tree(&self, alloc: Global) -> Result<Text, AllocError>
        ensures { IfOk result (λ text. text ≡ display_text false (shown self.now)) };

    /// With `verbose` each node tells these too.
    fn display_tree_verbose(&self, alloc: Global, verbose: bool) -> Result<Text, AllocError>
        ensures { IfOk result (λ text. text ≡ display_text verbose (shown self.now)) };

    /// Verbose, with the lengths of the buffers of each flat layout: by its array tree, else by its segment, which is
    /// then asked for.
    fn display_tree_with_segments(
        &self,
        alloc: Global,
        segments: &SegmentMap,
    ) -> Result<Text, ReadError>
        ensures { GivesText result (display_with (segment_in segments.now) (shown self.now)) };
}

impl LayoutDisplay for Layout {
    ghost use Rattle.std.specs.Prelude.{◌≡◌, IfOk, false};
    ghost use Rattle.vx_layout_tree.specs.LayoutView.{layout_data};

    ghost shown = { layout_data };

    ghost use Rattle.vx_segment_map.specs.SegmentView.{segment_in};
    ghost use Rattle.vx_display.specs.Text.{display_text, display_with};
    ghost use Rattle.vx_display.specs.Views.{GivesText};

    fn display_tree(&self, alloc: Global) -> Result<Text, AllocError>
        ensures { IfOk result (λ text. text ≡ display_text false (layout_data self.now)) }
    {
        self.display_tree_verbose(alloc, false)
    }

    #[tactic(auto, using(crate::proofs::WholeSteps::plain_rules))]
    fn display_tree_verbose(&self, alloc: Global, verbose: bool) -> Result<Text, AllocError>
        ensures { IfOk result (λ text. text ≡ display_text verbose (layout_data self.now)) }
    {
        match check_built(self) {
            Ok(()) => {}
            Err(LayoutError::OutOfMemory) => return Err(AllocError),
            Err(error) => return error_line(alloc, error),
        }
        let style = Style {
            alloc,
            verbose,
            segments: None,
        };
        match whole_tree(&style, self) {
            Ok(text) => Ok(text),
            Err(Stop::OutOfMemory) => Err(AllocError),
            Err(Stop::NoSegment(_) | Stop::BadSegment(_) | Stop::Refused) => unreachable!(),
        }
    }

    #[tactic(auto, using(crate::proofs::WholeSteps::asking_rules))]
    fn display_tree_with_segments(
        &self,
        alloc: Global,
        segments: &SegmentMap,
    ) -> Result<Text, ReadError>
        ensures { GivesText result (display_with (segment_in segments.now) (layout_data self.now)) }
    {
        match check_built(self) {
            Ok(()) => {}
            Err(LayoutError::OutOfMemory) => return Err(ReadError::OutOfMemory),
            Err(error) => return Ok(error_line(alloc, error)?),
        }
        let style = Style {
            alloc,
            verbose: true,
            segments: Some(segments),
        };
        match whole_tree(&style, self) {
            Ok(text) => Ok(text),
            Err(Stop::NoSegment(number)) => Err(ReadError::NoSegment(number)),
            Err(Stop::BadSegment(number)) => Err(ReadError::BadSegment(number)),
            Err(Stop::OutOfMemory) => Err(ReadError::OutOfMemory),
            Err(Stop::Refused) => unreachable!(),
        }
    }
}

#[tactic(auto, using(crate::proofs::NodeSteps::text_rules))]
fn whole_tree(style: &Style, layout: &Layout) -> Result<Text, Stop>
    ensures text { IfOk result (λ text. text ≡ tree_text (seen style.now) [] [] (layout_data layout.now)) }
    ensures fault { Faults result (first_fault (map_of style.now) (layout_data layout.now)) (all_built (layout_data layout.now)) }
{
    let mut out = String::new(style.alloc);
    push_tree(style, &mut out, "", "", layout)?;
    Ok(Text::from(out))
}

#[tactic(auto, using(crate::proofs::NodeSteps::text_rules))]
fn error_line(alloc: Global, error: LayoutError) -> Result<Text, AllocError>
    ensures { IfOk result (λ text. text ≡ codes "Error building layout tree: " ++ (error_name error ++ codes "\n")) }
{
    let name = error.name();
    drop(error);
    Ok(Text::from(format!(in alloc; "Error building layout tree: {name}\n")?))
}

/// The text of a layout's tree, kept.
#[derive(Debug, Drop)]
pub struct DisplayLayoutTree {
    text: Text,
}

impl Model for DisplayLayoutTree {
    ghost use Rattle.std.specs.Prelude.{ℕ, List};

    ghost Value = { List ℕ };

    ghost view = { λ d. d.text };
}

impl DisplayLayoutTree {
    ghost use Rattle.std.specs.Prelude.{◌≡◌, IfOk};
    ghost use Rattle.vx_layout_tree.specs.LayoutView.{layout_data};
    ghost use Rattle.vx_display.specs.Text.{display_text};

    /// Makes the text, of all lines.
    pub fn new(
        alloc: Global,
        layout: &Layout,
        verbose: bool,
    ) -> Result<DisplayLayoutTree, AllocError>
        ensures { IfOk result (λ d. d ≡ display_text verbose (layout_data layout.now)) }
    {
        let text = layout.display_tree_verbose(alloc, verbose)?;
        Ok(DisplayLayoutTree { text })
    }
}

impl fmt::Display for DisplayLayoutTree {
    ghost use Rattle.std.specs.Prelude.{Some};

    ghost output = { λ d. Some d };

    fn fmt<W: Write>(&self, f: &mut Formatter<W>) -> fmt::Result {
        f.write_str(self.text.as_str())
    }
}
