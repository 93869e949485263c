ghost use Rattle.std.specs.Prelude.{◌≡◌};
ghost use Rattle.web_frames.specs.Format as format;

/// How many bytes stand before a frame's payload: the flag and the length.
pub(crate) const HEAD_LENGTH: usize = 5;

/// What stands before a payload of so many bytes: the flag, 0 of a message and 0x80 of trailers, and the length, the highest byte first.
#[tactic(auto, unfolding(crate::specs::Format::frame_head))]
pub fn frame_head(flag: u8, length: u32) -> [u8; 5]
    ensures { result ≡ format.frame_head flag length }
{
    let [first, second, third, fourth] = length.to_be_bytes();
    [flag, first, second, third, fourth]
}
