//! The machine in memory as a disk.
use crate::MemMachine;
use crate::faults::CallKind;
use machine_model::{Area, Disk, Failed};

impl Disk for MemMachine {
    ghost use Rattle.std.specs.Prelude.{◌≡◌, ◌⊎◌, ℕ, ◌+◌, ◌-◌, ◌^◌, ◌≤◌, ◌∷◌, min, max, true, length, take, drop, refl, IfOk, OnOk, OnErr, IsErr};
    ghost use Rattle.machine_model.specs.Areas.{part, replaced};
    ghost use Rattle.machine_model.specs.Causes.{HasCause};
    ghost use Rattle.machine_model.specs.Calls.{Writes, Syncs, IsSynced, IsPartlyReached, written};
    ghost use Rattle.machine_model.specs.declared.area.Area.TheVariants.{Journal, Pages};
    ghost use Rattle.machine_mem.specs.Machines.{OnlyDisk, did_read, wrote, synced, passed, failed_disk, failed_sync};
    ghost use Rattle.machine_mem.specs.MachineLaws.{OnlyDisk-same, OnlyDisk-joins};
    ghost use Rattle.machine_mem.specs.Calls.{IsDue, called, script_of, Serves, Starves, Remembers, Stays};
    ghost use Rattle.machine_mem.specs.Meaning.{meaning, disk_state};

    ghost disk_tells = { Unit {0} };

    ghost disk = { disk_state };

    ghost only = { λ x y. OnlyDisk (meaning x) (meaning y) };

    ghost has_lost = { λ x. (meaning x).has_lost ≡ true };

    ghost only_same = { λ x. OnlyDisk-same (meaning x) };

    ghost only_joins = { λ x y z one two. OnlyDisk-joins (meaning x) (meaning y) (meaning z) one two };

    ghost only_faults = { λ x y one. one.faults };

    ghost only_reach = { λ x y area one. one.reach area };

    ghost only_goes_on = { λ x y tells one. one.goes_on };

    ghost only_beside = { λ x y tells one. one.beside };

    ghost only_read = { λ x y area tells one. one.read area };

    ghost only_lost = { λ x y one was. one.lost was };

    ghost faults_limit = { λ x. x.disk_faults.small };

    ghost reach_limit = { λ x. elim [ Journal ↦ x.history.current.journal.limit | Pages ↦ x.history.current.pages.limit ] };

    ghost reach_holds = { λ x. elim [ Journal ↦ λ tells. refl | Pages ↦ λ tells. refl ] };

    ghost holds_allowed = { λ x tells. elim [ Journal ↦ x.history.current.journal.allowed | Pages ↦ x.history.current.pages.allowed ] };

    ghost stable_bytes = { λ x. elim [
      | Journal ↦ λ tells. x.history.current.journal.remains.sound.bytes
      | Pages ↦ λ tells. x.history.current.pages.remains.sound.bytes
    ] };

    fn length(&mut self, area: Area) -> Result<u64, Failed>
        ensures only { OnlyDisk (meaning self.old) (meaning self.new) }
        ensures cause { HasCause (disk_state self.old).faults (disk_state self.new).faults result }
        ensures length { IfOk result (λ n. n ≡ part (disk_state self.old).reach area) }
        ensures same { disk_state self.new ≡ record (disk_state self.old) { faults = (disk_state self.new).faults } }

        // exactly
        ensures done { OnOk result (Serves (λ x. x) self.old self.new) }
        ensures why { OnErr result (((landed : ℕ) × IsDue self.old CallKind.Length landed) × Serves failed_disk self.old self.new) }
        ensures named { (landed : ℕ) → IsDue self.old CallKind.Length landed → IsErr result }
        ensures counted { script_of self.new ≡ called CallKind.Length (script_of self.old) }
        ensures stays { Stays self.old self.new }
    {
        if self.script.due(CallKind::Length).is_some() {
            return Err(self.disk_faults.fails());
        }
        Ok(self.store(area).held.len() as u64)
    }

    fn read(&mut self, area: Area, at: u64, buf: &mut [u8]) -> Result<(), Failed>
        requires { at + length buf.old ≤ part (disk_state self.old).reach area }
        ensures only { OnlyDisk (meaning self.old) (meaning self.new) }
        ensures cause { HasCause (disk_state self.old).faults (disk_state self.new).faults result }
        ensures bytes { OnOk result (buf.new ≡ take (length buf.old) (drop at (part (disk_state self.old).holds area))) }
        ensures count { OnOk result
            ((disk_state self.new).bytes_read ≡ replaced (disk_state self.old).bytes_read area
            (part (disk_state self.old).bytes_read area + length buf.old)) }
        ensures failed { OnErr result ((disk_state self.new).bytes_read ≡ (disk_state self.old).bytes_read) }
        ensures same { disk_state self.new ≡ record (disk_state self.old) {
          faults = (disk_state self.new).faults;
          bytes_read = (disk_state self.new).bytes_read;
        } }

        // exactly
        ensures done { OnOk result (Serves (did_read area (length buf.old)) self.old self.new) }
        ensures why { OnErr result ((((landed : ℕ) × IsDue self.old CallKind.Read landed) × Serves failed_disk self.old self.new)
            ⊎ Starves failed_disk self.old self.new) }
        ensures named { (landed : ℕ) → IsDue self.old CallKind.Read landed → IsErr result }
        ensures counted { script_of self.new ≡ called CallKind.Read (script_of self.old) }
        ensures stays { Stays self.old self.new }
    {
        if self.script.due(CallKind::Read).is_some() {
            return Err(self.disk_faults.fails());
        }
        match self.count_read(area, buf.len() as u64) {
            Ok(()) => {
                let at = at as usize;
                buf.copy_from_slice(&self.store(area).held[at..at + buf.len()]);
                Ok(())
            }
            Err(_) => {
                self.starved.rise();
                Err(self.disk_faults.fails())
            }
        }
    }

    fn write(&mut self, area: Area, at: u64, bytes: &[u8]) -> Result<(), Failed>
        requires { at + length bytes.now ≤ 2 ^ 40 }
        ensures only { OnlyDisk (meaning self.old) (meaning self.new) }
        ensures cause { HasCause (disk_state self.old).faults (disk_state self.new).faults result }
        ensures reach { OnOk result
            ((disk_state self.new).reach ≡ replaced (disk_state self.old).reach area
            (max (part (disk_state self.old).reach area) (at + length bytes.now))) }
        ensures between { OnErr result
            (IsPartlyReached area (at + length bytes.now) (disk_state self.old).reach (disk_state self.new).reach) }
        ensures images { Writes area at (length bytes.now) (disk_state self.old) (disk_state self.new) }
        ensures tried { OnOk result
            ((disk_state self.new).now.pending ≡ replaced (disk_state self.old).now.pending area
            (record { at = at; count = length bytes.now } ∷ part (disk_state self.old).now.pending area)) }
        ensures holds { OnOk result
            ((disk_state self.new).holds ≡ replaced (disk_state self.old).holds area
            (written at bytes.now (part (disk_state self.old).holds area))) }
        ensures read { (disk_state self.new).bytes_read ≡ (disk_state self.old).bytes_read }

        // exactly; of a write that a fault names, the first bytes come through
        ensures done { OnOk result (Serves (wrote area at bytes.now (length bytes.now)) self.old self.new) }
        ensures why { OnErr result
            (((landed : ℕ) × IsDue self.old CallKind.Write landed
            × Serves (λ x. failed_disk (wrote area at bytes.now (min landed (length bytes.now)) x)) self.old self.new)
            ⊎ Starves failed_disk self.old self.new) }
        ensures named { (landed : ℕ) → IsDue self.old CallKind.Write landed → IsErr result }
        ensures counted { script_of self.new ≡ called CallKind.Write (script_of self.old) }
        ensures remembers { Remembers self.old self.new }
    {
        match self.script.due(CallKind::Write) {
            None => match self.try_write(area, at, bytes, bytes.len()) {
                Ok(()) => Ok(()),
                Err(_) => {
                    self.starve();
                    Err(self.disk_faults.fails())
                }
            },
            Some(landed) => {
                let landed = landed.min(bytes.len() as u64) as usize;
                match self.try_write(area, at, bytes, landed) {
                    Ok(()) => Err(self.disk_faults.fails()),
                    Err(_) => {
                        self.starve();
                        Err(self.disk_faults.fails())
                    }
                }
            }
        }
    }

    fn sync(&mut self) -> Result<(), Failed>
        ensures only { OnlyDisk (meaning self.old) (meaning self.new) }
        ensures cause { HasCause (disk_state self.old).faults (disk_state self.new).faults result }
        ensures reach { (disk_state self.new).reach ≡ (disk_state self.old).reach }
        ensures images { Syncs (disk_state self.old) (disk_state self.new) }
        ensures durable { OnOk result (IsSynced (disk_state self.old) (disk_state self.new)) }
        ensures failed { OnErr result ((disk_state self.new).now ≡ (disk_state self.old).now) }
        ensures read { (disk_state self.new).bytes_read ≡ (disk_state self.old).bytes_read }
        ensures lost { OnErr result ((meaning self.new).has_lost ≡ true) }
        ensures stays_lost { (meaning self.old).has_lost ≡ true → IsErr result }

        // exactly; behind a sync that failed each is recorded as one that a fault names
        ensures done { OnOk result (Serves synced self.old self.new) }
        ensures why { OnErr result (((((landed : ℕ) × IsDue self.old CallKind.Sync landed) ⊎ ((meaning self.old).has_lost ≡ true))
            × Serves (λ x. failed_sync (passed x)) self.old self.new) ⊎ Starves failed_sync self.old self.new) }
        ensures named { (landed : ℕ) → IsDue self.old CallKind.Sync landed → IsErr result }
        ensures counted { script_of self.new ≡ called CallKind.Sync (script_of self.old) }
        ensures remembers { Remembers self.old self.new }
    {
        if self.script.due(CallKind::Sync).is_some() || self.has_lost {
            return match self.try_pass() {
                Ok(()) => Err(self.lose()),
                Err(_) => {
                    self.starve();
                    Err(self.lose())
                }
            };
        }
        match self.try_sync() {
            Ok(()) => Ok(()),
            Err(_) => {
                self.starve();
                Err(self.lose())
            }
        }
    }
}
