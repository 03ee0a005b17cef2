//! What a file that is read and written in place does, call by call.

ghost use Rattle.std.specs.Prelude.{◌≡◌, ◌≤◌, ◌-◌, ℕ, List, Option, length, take, drop, min, is_some, IfOk, OnOk, OnErr, IfSome};
ghost use Rattle.std.specs.Option.{option_map};
ghost use Rattle.disk_io.specs.Disk.{AreAmong, Follows, GoesOn, Only, Torn, written};
ghost use Rattle.house_io.specs.Faults.{Rose};

use house_io::Failed;

/// A file that is read and written in place, and what a crash may leave of it. An image is what is found there after
/// a crash.
pub trait Disk {
    /// The content as it reads, where the disk tells it.
    ghost content: { Self → Option (List ℕ) };

    /// The images that a crash now may leave.
    ghost images: { Self → List ℕ → Type 0 };

    /// The images that a crash at some moment since a time might have left.
    ghost images_since: { Self → ℕ → List ℕ → Type 0 };

    /// The disk's own clock, which gives these times.
    ghost moment: { Self → ℕ };

    /// How many faults there were.
    ghost faults: { Self → ℕ };

    /// How many bytes there are.
    fn size(&mut self) -> Result<u64, Failed>
        ensures value { IfOk result (λ size. IfSome (content self.old) (λ bytes. size ≡ length bytes)) }
        ensures same { content self.new ≡ content self.old }
        ensures images { AreAmong (images self.new) (images self.old) }
        ensures during { AreAmong (images_since self.new (moment self.old)) (images self.old) }
        ensures time { GoesOn (moment self.old) (moment self.new) (images_since self.old) (images_since self.new) }
        ensures failed { OnErr result (Rose (faults self.old) (faults self.new)) }
        ensures never_falls { faults self.old ≤ faults self.new };

    /// Reads the bytes from a place on into the front of the buffer, and answers how many. A buffer that has room
    /// gets none only at the end.
    fn read(&mut self, at: u64, buf: &mut [u8]) -> Result<usize, Failed>
        ensures within { IfOk result (λ count. count ≤ length buf.old) }
        ensures count { IfOk result (λ count. IfSome (content self.old) (λ bytes.
            count ≡ min (length buf.old) (length bytes - at))) }
        ensures value { IfOk result (λ count. IfSome (content self.old) (λ bytes.
            take count buf.new ≡ take count (drop at bytes))) }
        ensures same { content self.new ≡ content self.old }
        ensures images { AreAmong (images self.new) (images self.old) }
        ensures during { AreAmong (images_since self.new (moment self.old)) (images self.old) }
        ensures time { GoesOn (moment self.old) (moment self.new) (images_since self.old) (images_since self.new) }
        ensures failed { OnErr result (Rose (faults self.old) (faults self.new)) }
        ensures never_falls { faults self.old ≤ faults self.new };

    /// Writes a piece over what stands at a place and behind it. Until the next sync a crash may leave any bytes in
    /// its range.
    fn write_at(&mut self, at: u64, piece: &[u8]) -> Result<(), Failed>
        requires { IfSome (content self.old) (λ bytes. at ≤ length bytes) }
        ensures told { is_some (content self.new) ≡ is_some (content self.old) }
        ensures written { OnOk result (content self.new
            ≡ option_map (λ bytes. written bytes at piece.now) (content self.old)) }
        ensures images { Follows (Torn at (length piece.now)) (images self.old) (images self.new) }
        ensures during { Follows (Torn at (length piece.now)) (images self.old)
            (images_since self.new (moment self.old)) }
        ensures time { GoesOn (moment self.old) (moment self.new) (images_since self.old) (images_since self.new) }
        ensures failed { OnErr result (Rose (faults self.old) (faults self.new)) }
        ensures never_falls { faults self.old ≤ faults self.new };

    /// Makes the content durable: after an Ok a crash leaves what a read gives.
    fn sync(&mut self) -> Result<(), Failed>
        ensures told { is_some (content self.new) ≡ is_some (content self.old) }
        ensures same { OnOk result (content self.new ≡ content self.old) }
        ensures durable { OnOk result (IfSome (content self.new) (λ bytes. Only bytes (images self.new))) }
        ensures images { AreAmong (images self.new) (images self.old) }
        ensures during { AreAmong (images_since self.new (moment self.old)) (images self.old) }
        ensures time { GoesOn (moment self.old) (moment self.new) (images_since self.old) (images_since self.new) }
        ensures failed { OnErr result (Rose (faults self.old) (faults self.new)) }
        ensures never_falls { faults self.old ≤ faults self.new };

    /// What reads is one of the images.
    ghost reads_may_stay: { (disk : Self) → IfSome (content disk) (images disk) };

    /// The images now are among those since each time up to now.
    ghost counts_now: { (disk : Self) (t : ℕ) (image : List ℕ) → t ≤ moment disk → images disk image → images_since disk t image };

    /// The images since the present time are those now.
    ghost only_now: { (disk : Self) (image : List ℕ) → images_since disk (moment disk) image → images disk image };
}
