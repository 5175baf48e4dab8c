//! The law of encoding: what an encoder writes of a frame, whatever it chooses, is read back as that frame. A call brings it into a proof.
ghost use Rattle.std.specs.Prelude.{◌≡◌, ℕ, List, ◌++◌, length, Ok};
ghost use Rattle.flac_frames.specs.Frame.{Frame, frame_of};
ghost use Rattle.flac_frames.specs.FrameChoices.{FrameChoice, frame_bytes};
ghost use Rattle.flac_frames.specs.MayEncodeFrame.{MayEncode, CanBeEncoded};
ghost use Rattle.flac_frames.specs.declared.head.Stream.{Stream};

/// For all that an encoder may choose (block size, channel assignment, predictor, coefficients, precision, shift, partition order, Rice
/// parameters and escapes, wasted bits, and how the head tells them), the bytes that it writes of a frame are read as just this frame, and
/// no byte behind them is taken. Each frame within the format's limits can be written by some choice.
pub fn encoded_frames_decode()
    ensures decoded { (stream : Stream) (choice : FrameChoice) (frame : Frame) (more : List ℕ) → MayEncode stream choice frame →
        frame_of stream (frame_bytes choice frame ++ more) ≡ Ok (record { frame = frame; used = length (frame_bytes choice frame) }) }
    ensures some_choice { (stream : Stream) (frame : Frame) → CanBeEncoded stream frame →
        (choice : FrameChoice) × MayEncode stream choice frame }
{}
