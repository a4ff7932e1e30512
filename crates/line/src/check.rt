// The check of the stored plan and of the parts that it leaves unused.
ghost use Rattle.std.specs.Prelude.{◌≡◌, length};
ghost use Rattle.state.specs.Sizes.{state_size};
ghost use Rattle.buffer.specs.Ready.{Ready};
ghost use Rattle.line.specs.Whole.{plan_exact, rest_exact};

use buffer::{Line, bytes, layout, look};

// Whether the stored plan would not be refused, and nothing stands behind it.
pub fn plan_ok(s: &[u8]) -> bool
    requires { length s.now ≡ state_size }
    ensures { result ≡ plan_exact s.now }
{
    let size = plan::bytes::size_by_head(s);
    plan::plan_check(&s[0..size]).is_ok() && bytes::all_zero(s, size, layout::STEPS)
}

// Whether nothing stands in the parts that the plan leaves unused.
pub fn rest_ok(s: &[u8]) -> bool
    requires { Ready s.now }
    ensures { result ≡ rest_exact s.now }
{
    let pages = layout::PAGE * (1 + look::node_count(s));
    let blocks = layout::BLOCKS + layout::BLOCK * look::channel_count(s);
    let a = bytes::all_zero(s, layout::STEPS_REST, layout::PAGE);
    let b = bytes::all_zero(s, pages, layout::BLOCKS);
    let c = bytes::all_zero(s, blocks, layout::TAIL);
    let d = bytes::all_zero(s, layout::TAIL, Line::STATE_SIZE);
    ((a & b) & c) & d
}
