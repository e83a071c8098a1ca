// Headroom: a frame less what is booked of it.
ghost use Rattle.std.specs.Prelude.{◌≡◌, ◌^◌, ◌<◌, pos, ◌-ℤ◌};
ghost use Rattle.std.specs.Int.{w64};
ghost use Rattle.std.proofs.Common.{SFits};

// A frame less what is taken of it, with its sign.
pub fn difference(frame: u64, taken: u64) -> i64
    requires frame_fits { frame < 2 ^ 63 }
    requires taken_fits { taken < 2 ^ 63 }
    ensures result { result ≡ pos frame -ℤ pos taken }
    ensures fits { SFits w64 result }
{
    frame as i64 - taken as i64
}
