//! A real file as a disk, which reports nothing of its content.
ghost use Rattle.std.specs.Prelude.{◌≡◌, Ok, MatchResult, IsErr, IfOk, OnOk, OnErr, []};
ghost use Rattle.std.specs.Io.{ReadsAtMost};
ghost use Rattle.orc_io.specs.Counts.{HasCause};
ghost use Rattle.orc_disk.specs.Rows.{read_piece};
ghost use Rattle.orc_disk.specs.Course.{Performed, PerformedRead};
ghost use Rattle.orc_disk.specs.RealFiles.{file_disk, file_failed, file_asked, file_gave};
ghost use Rattle.orc_disk.specs.laws.Course.{Tallied-refl, Tallied-trans};

use crate::Disk;
use crate::heard::Heard;
use orc_io::Failed;
use std::fs::File;
use std::io;
use std::marker::Model;
use std::os::unix::fs::FileExt;

/// A real file, which contracts see as its count of faults, its count of writes and syncs, and what
/// its reads gave. Each error of the file is a fault, and nothing else is.
#[derive(Drop)]
pub struct FileDisk {
    file: File,
    faults: u64,
    ops: u64,
    heard: Heard,
}

impl Model for FileDisk {
    ghost use Rattle.orc_disk.specs.RealFiles.{RealFile};

    ghost Value = { RealFile };

    ghost view = { λ disk. record { faults = disk.faults; ops = disk.ops; heard = disk.heard.reads } };
}

impl FileDisk {
    /// A disk over a file that was opened to be read and written, with no fault, which was asked for
    /// nothing yet.
    pub fn over(file: File) -> FileDisk
        ensures { result ≡ record { faults = 0; ops = 0; heard = [] } }
    {
        FileDisk {
            file,
            faults: 0,
            ops: 0,
            heard: Heard::new(),
        }
    }

    // Counts a fault where the file answered an error.
    fn counted<T: Drop>(&mut self, outcome: io::Result<T>) -> Result<T, Failed>
        ensures value { MatchResult outcome (λ value. result ≡ Ok value) (λ _. IsErr result) }
        ensures cause { HasCause self.old.faults self.new.faults result }
        ensures still { OnOk result (self.new ≡ self.old) }
        ensures rose { OnErr result (self.new ≡ file_failed self.old) }
    {
        match outcome {
            Ok(value) => Ok(value),
            Err(_) => {
                self.faults = self.faults.saturating_add(1);
                Err(Failed)
            }
        }
    }
}

impl FileDisk {
    // Counts a write or a sync that it is asked for.
    fn ask(&mut self)
        ensures { self.new ≡ file_asked self.old }
    {
        self.ops = self.ops.saturating_add(1);
    }

    // Reads at an offset as many bytes as there are and fit, and answers how many.
    fn fill(&mut self, at: u64, buf: &mut [u8]) -> Result<usize, Failed>
        ensures bound { ReadsAtMost result buf.new }
        ensures still { OnOk result (self.new ≡ self.old) }
        ensures rose { OnErr result (self.new ≡ file_failed self.old) }
        ensures cause { HasCause self.old.faults self.new.faults result }
    {
        let mut count = 0;
        while count < buf.len() {
            let outcome = self
                .file
                .read_at(&mut buf[count..], at.saturating_add(count as u64));
            match self.counted(outcome)? {
                0 => return Ok(count),
                more => count += more,
            }
        }
        Ok(count)
    }
}

impl Disk for FileDisk {
    ghost disk = { file_disk };

    fn len(&mut self) -> Result<u64, Failed>
        ensures performed { Performed file_disk 0 result self.old self.new }

        ensures still { OnOk result (self.new ≡ self.old) }
        ensures rose { OnErr result (self.new ≡ file_failed self.old) }
    {
        let metadata = self.file.metadata();
        Ok(self.counted(metadata)?.len())
    }

    fn read_at(&mut self, at: u64, buf: &mut [u8]) -> Result<usize, Failed>
        ensures bound { ReadsAtMost result buf.new }
        ensures performed { PerformedRead file_disk at buf.new result self.old self.new }

        ensures still { IfOk result (λ n. self.new ≡ file_gave self.old (read_piece at buf.new n)) }
        ensures rose { OnErr result (self.new ≡ file_failed self.old) }
    {
        let count = self.fill(at, buf)?;
        self.heard.note(at, buf, count);
        Ok(count)
    }

    fn write_at(&mut self, at: u64, bytes: &[u8]) -> Result<(), Failed>
        ensures cut { OnErr result (file_disk.cut at bytes.now self.old self.new) }
        ensures performed { Performed file_disk 1 result self.old self.new }

        ensures still { OnOk result (self.new ≡ file_asked self.old) }
        ensures rose { OnErr result (self.new ≡ file_failed (file_asked self.old)) }
    {
        self.ask();
        let outcome = self.file.write_all_at(bytes, at);
        self.counted(outcome)
    }

    fn sync(&mut self) -> Result<(), Failed>
        ensures cut { OnErr result (file_disk.cut_sync self.old self.new) }
        ensures performed { Performed file_disk 1 result self.old self.new }

        ensures still { OnOk result (self.new ≡ file_asked self.old) }
        ensures rose { OnErr result (self.new ≡ file_failed (file_asked self.old)) }
    {
        self.ask();
        let outcome = self.file.sync_all();
        self.counted(outcome)
    }

    fn faults(&self) -> u64 {
        self.faults
    }

    ghost reads_as_image = { λ _. tt };

    ghost counts_now = { λ _ _ _ _ left. left };

    ghost only_now = { λ _ _ left. left };

    ghost untold_has_no_image = { λ _ _ _ left. absurd left };

    ghost earlier = { λ _ _ _ _ _ left. left };

    ghost stays = { λ file. Tallied-refl file.faults file.ops file.heard };

    ghost goes_on = { λ first second a b c p q. Tallied-trans first second _ _ _ _ _ _ _ _ _ p q };

    ghost counts = { λ _ _ _ led. led.faulted };

    ghost counts_ops = { λ _ _ _ led. led.asked };

    ghost tells_reads = { λ _ _ _ led. led.gave };
}
