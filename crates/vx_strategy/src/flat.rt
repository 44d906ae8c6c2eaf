use crate::strategy::Strategy;

/// Stores one chunk as one segment.
#[derive(Clone, Copy, Debug, PartialEq, Eq)]
pub struct FlatLayoutStrategy {
    /// Whether buffers begin at multiples of eight bytes.
    pub include_padding: bool,
    /// Whether the layout keeps the segment's tree.
    pub inline_array_node: bool,
}

impl FlatLayoutStrategy {
    ghost use Rattle.std.specs.Prelude.{◌≡◌, true, false};
    ghost use Rattle.vx_strategy_spec.specs.StrategyData.{flat};
    ghost use Rattle.vx_strategy.specs.FlatViews.{flat_options};
    ghost use Rattle.vx_strategy.specs.StrategyView.{strategy_data};

    /// Buffers padded to multiples of eight bytes, and no array tree in the layout.
    pub fn default() -> FlatLayoutStrategy
        ensures { flat_options result ≡ record { padding = true; inline = false } }
    {
        FlatLayoutStrategy {
            include_padding: true,
            inline_array_node: false,
        }
    }

    /// Whether buffers are aligned by bytes of padding.
    pub fn with_include_padding(self, include_padding: bool) -> FlatLayoutStrategy
        ensures { flat_options result ≡ record (flat_options self) { padding = include_padding } }
    {
        FlatLayoutStrategy {
            include_padding,
            inline_array_node: self.inline_array_node,
        }
    }

    /// Whether the array's tree stands in the layout's metadata.
    pub fn with_inline_array_node(self, inline_array_node: bool) -> FlatLayoutStrategy
        ensures { flat_options result ≡ record (flat_options self) { inline = inline_array_node } }
    {
        FlatLayoutStrategy {
            include_padding: self.include_padding,
            inline_array_node,
        }
    }

    /// Takes no memory.
    pub fn into_strategy(self) -> Strategy
        ensures { strategy_data result ≡ flat (flat_options self) }
    {
        Strategy::Flat(self)
    }
}
