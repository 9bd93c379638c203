//! An open file, as a trait: the calls of the system by which a disk is kept in it. Std's file has it, and a file in memory, whose content contracts know.

ghost use Rattle.std.specs.Prelude.{◌≡◌, ◌≤◌, ◌<◌, ℕ, List, length, take, option_map, IfOk, OnOk};
ghost use Rattle.std.specs.declared.option.Option.{Option};
ghost use Rattle.disk.specs.FileContent.{written_in, EndsAt};

use ft_io::Failed;

/// An open file. Each method is one call of the system. After `Failed` a call may have been done in part.
pub trait OpenFile {
    /// What the file has, from its first byte on, or `None` where that isn't specified.
    ghost content: { Self → Option (List ℕ) };

    /// What a loss of power leaves at least: the content at the last sync, or `None` where that isn't specified.
    ghost synced: { Self → Option (List ℕ) };

    /// Moves bytes to the beginning of `buf`, those after the last read, and returns how many: 0 only at the end.
    fn read(&mut self, buf: &mut [u8]) -> Result<usize, Failed>
        requires { 0 < length buf.old }
        ensures within { IfOk result (λ n. n ≤ length buf.new) }
        ensures same { content self.new ≡ content self.old };

    /// Writes a prefix of `bytes` at the place `at`, counted from 0, and returns its length.
    fn write_at(&mut self, bytes: &[u8], at: u64) -> Result<usize, Failed>
        ensures within { IfOk result (λ n. n ≤ length bytes.now) }
        ensures written { IfOk result (λ n. content self.new ≡ written_in at (take n bytes.now) (content self.old)) };

    /// Cuts off the bytes from the place `len` on.
    fn set_len(&mut self, len: u64) -> Result<(), Failed>
        ensures cut { OnOk result (content self.new ≡ option_map (take len) (content self.old)) };

    /// Waits until the file's bytes and its length are on the disk.
    fn sync(&mut self) -> Result<(), Failed>
        ensures same { content self.new ≡ content self.old }
        ensures synced { OnOk result (synced self.new ≡ content self.new) };

    /// Waits until all of the file is on the disk, with the times of its changes.
    fn sync_all(&mut self) -> Result<(), Failed>
        ensures same { content self.new ≡ content self.old }
        ensures synced { OnOk result (synced self.new ≡ content self.new) };

    /// Drops the kernel's cached pages of the file: a failed sync of an earlier process may have left them different from the disk.
    fn drop_cached(&mut self) -> Result<(), Failed>
        ensures same { content self.new ≡ content self.old }
        ensures synced { synced self.new ≡ synced self.old };

    /// How many bytes the file has.
    fn count(&mut self) -> Result<u64, Failed>
        ensures same { content self.new ≡ content self.old }
        ensures synced { synced self.new ≡ synced self.old }
        ensures count { IfOk result (λ count. EndsAt (content self.new) count) };
}
