ghost use Rattle.std.specs.Prelude.{◌≡◌, ◌<◌, ◌≤◌, ◌+◌, ◌^◌, IfOk, IfSome, None, Some, count_by, is_some, length};
ghost use Rattle.storage_model.specs.Plan.{IsValidPlan};
ghost use Rattle.cq_regs.specs.Effects.{belled};
ghost use Rattle.drv_jobs.specs.Changes.{collected, forgotten, issued_if};
ghost use Rattle.drv_jobs.specs.Next.{IsFitting, due_of};
ghost use Rattle.drv_jobs.specs.Standings.{holder_of};
ghost use Rattle.drv_ring.specs.Layout.{HasLayout};
ghost use Rattle.drv_recover.specs.Ends.{Uses};
ghost use Rattle.drv_recover.specs.Recovery.{Event as RecoveryEvent, IsAt, IsOver, halted};
ghost use Rattle.drv_recover.specs.declared.recovery.RecoveryState.TheVariants.{Calm, Halted};
ghost use Rattle.drv_jobs.specs.Sound.{IsSound};
ghost use Rattle.drv_recover.specs.declared.recovery.Step.TheVariants.{Moved, Over};
ghost use Rattle.drv_core.specs.declared.act.Act.TheVariants.{Collected, Step as Stepped};
ghost use Rattle.drv_core.specs.SetUp.{set_up};
ghost use Rattle.drv_core.specs.State.{asks_notice, at_start, is_recovering, layout_of, next_of, with_requests};
ghost use Rattle.drv_core.specs.Judge.{judged};
ghost use Rattle.drv_core.specs.Event.{IsWritten, WritesFor, acknowledged, requests_after, rung_for, step_of, told_of};
ghost use Rattle.drv_core.specs.Work.{has_work, work_of};

use crate::judge::judge;
use crate::set_up::{LIST_BASE, set_up, upper_base};
use crate::work::{is_recovering, work_of};
use crate::{Act, Work};
use bus_link::{Cause, Link};
use cq_regs::{Register, Regs};
use drv_jobs::{Due, Hold, Requests};
use drv_recover::{Recovery, RecoveryState, Step};
use drv_ring::Layout;
use host_mem::HostMem;
use std::alloc::Global;
use std::marker::Model;
use storage_model::{Job, NoMemory, Plan, is_direct};

/// The offset of the interrupt status (CQHCI_IS).
const INTERRUPT_STATUS: u8 = 0x10;

/// The offset of the doorbell (CQHCI_TDBR).
const DOORBELL: u8 = 0x28;

/// The offset of the completion notification (CQHCI_TCN).
const COMPLETION_NOTIFICATION: u8 = 0x2c;

/// The task notice of the interrupt status (CQHCI_IS_TCC).
const NOTICE: u32 = 0x2;

/// The driver of a run: the requests of its plan, numbered from 1, and the recovery after a stop of the engine.
#[derive(Debug, Drop)]
pub struct Driver {
    requests: Requests,
    recovery: Recovery,
}

impl Model for Driver {
    ghost use Rattle.drv_core.specs.State.{DriverState};

    ghost Value = { DriverState };

    ghost view = { λ it. record { requests = it.requests; recovery = it.recovery } };
}

impl Driver {
    ghost use Rattle.drv_core.specs.Event.{Event};

    /// All requests of a plan wait. It takes all its memory here.
    ///
    /// # Errors
    ///
    /// `NoMemory` where the allocator has none.
    pub fn start(alloc: Global, plan: Plan) -> Result<Driver, NoMemory>
        requires { IsValidPlan plan }
        ensures start { IfOk result (λ driver. driver ≡ at_start plan) }
        ensures sound { IfOk result (λ driver. IsSound driver.requests) }
    {
        let requests = Requests::start(alloc, plan)?;
        let driver = Driver {
            requests,
            recovery: Recovery::new(),
        };
        driver.stays_sound();
        Ok(driver)
    }

    /// After a loss of power: each issued request is answered, all tags are free, and no recovery is under way.
    pub fn forget(&mut self)
        ensures after { self.new ≡ record { requests = forgotten self.old.requests; recovery = Calm } }
        ensures sound { IsSound self.new.requests }
    {
        self.requests.forget();
        self.recovery = Recovery::new();
        self.stays_sound();
    }

    /// What an event would do now: the first that applies.
    pub fn work(&self, regs: &Regs) -> Work
        ensures { result ≡ work_of self.now.recovery regs.now }
    {
        work_of(self.recovery.state(), regs)
    }

    /// Whether an event would do anything now.
    pub fn has_work(&self, regs: &Regs) -> bool
        ensures { result ≡ has_work self.now regs.now }
    {
        match self.work(regs) {
            Work::Recover | Work::Collect | Work::Fail => true,
            Work::Issue => self.requests.due().is_ok(),
        }
    }

    /// The waiting request with the lowest number, where it may be issued. A stop of the engine or a recovery isn't looked at.
    ///
    /// # Errors
    ///
    /// - `Done` where none waits.
    /// - `Behind` where it is direct and any request is issued, or a direct one is.
    /// - `Full` where all tags are used.
    pub fn next(&self) -> Result<u32, Hold>
        ensures { result ≡ next_of (due_of self.now.requests) }
    {
        match self.requests.due() {
            Ok(due) => Ok(due.id),
            Err(hold) => Err(hold),
        }
    }

    /// The request that a tag is issued for, also while a recovery holds it. None where the tag is not issued.
    pub fn holder(&self, tag: u8) -> Option<u32>
        ensures value { result ≡ holder_of self.now.requests.holders tag }
        ensures tag { IfSome result (λ id. tag < 32) }
        ensures id { IfSome result (λ id. (1 ≤ id) × (id ≤ length self.now.requests.plan.jobs)) }
    {
        self.requests.holder(tag)
    }

    /// How many requests wait.
    pub fn waiting(&self) -> u32
        ensures { result ≡ count_by (λ waits. waits) self.now.requests.waiting }
    {
        self.requests.waiting()
    }

    /// How many requests are issued and not answered, those that a recovery holds among them.
    pub fn issued(&self) -> u32
        ensures { result ≡ count_by is_some self.now.requests.holders }
    {
        self.requests.issued()
    }

    /// The plan. It is valid, and each request stands in one way only.
    pub fn plan(&self) -> &Plan
        ensures plan { result.now ≡ self.now.requests.plan }
        ensures sound { IsSound self.now.requests }
    {
        self.requests.plan()
    }

    /// Whether a recovery is under way.
    pub fn recovering(&self) -> bool
        ensures { result ≡ is_recovering self.now.recovery }
    {
        is_recovering(self.recovery.state())
    }

    /// Where the lists and buffers of the run stand in host memory.
    pub fn layout(&self) -> Layout
        ensures { result ≡ layout_of self.now.requests.plan }
    {
        let plan = self.requests.plan();
        let base = u64::from(LIST_BASE) + (u64::from(upper_base(plan.wide)) << 32);
        Layout::new(base, plan.depth, plan.wide)
    }

    /// Writes the registers of the set up, and no others; the configuration, which enables the host interface, comes last.
    pub fn set_up(&self, regs: &mut Regs)
        ensures { regs.new ≡ set_up self.now.requests.plan regs.old }
    {
        set_up(self.requests.plan(), regs);
    }

    /// One event: the first of these that applies.
    ///
    /// - A recovery is under way: it takes its next step. After the last one all requests that it held wait again, by number.
    /// - Tasks are notified as complete, and the interrupt is signalled or the engine has stopped: their requests are answered,
    ///   and completion notification and task notice are cleared.
    /// - The engine has stopped, for the `cause`: the request that this ends is answered, and a recovery begins by a halt. A
    ///   request is ended by the fourth fault of the bus that names it, by a fault of the flash (bit 19 or 21 of the word), or as
    ///   it is out of range (bit 31).
    /// - The next request may be issued: its descriptors are written, and the doorbell of its tag is rung.
    ///
    /// Only a step of a recovery uses the link.
    pub fn event<L: Link>(
        &mut self,
        regs: &mut Regs,
        mem: &mut HostMem,
        cause: Option<Cause>,
        link: &mut L,
    ) -> Act
        requires fits { L.fits link.old }
        requires layout { HasLayout mem.old (layout_of self.old.requests.plan) }
        ensures event { Event L.made (record { driver = self.old; regs = regs.old; memory = mem.old; link = link.old }) (record { driver = self.new; regs = regs.new; memory = mem.new; link = link.new }) cause result }
        ensures uses { Uses L.keeps L.fits L.state link.old link.new (step_of result) }
        ensures plan { self.new.requests.plan ≡ self.old.requests.plan }
        ensures sound { IsSound self.new.requests }
        ensures layout { HasLayout mem.new (layout_of self.new.requests.plan) }
        ensures at { IsAt self.old.recovery regs.old → IsAt self.new.recovery regs.new }
        ensures over { IsAt self.old.recovery regs.old → result ≡ Stepped Over → IsOver regs.new }
    {
        match work_of(self.recovery.state(), regs) {
            Work::Recover => Act::Step(self.recover(regs, link)),
            Work::Collect => self.collect(regs),
            Work::Fail => self.fail(regs, cause, link),
            Work::Issue => self.issue(regs, mem),
        }
    }

    // The next step of a recovery.
    fn recover<L: Link>(&mut self, regs: &mut Regs, link: &mut L) -> Step
        requires fits { L.fits link.old }
        ensures event { RecoveryEvent L.made link.old link.new self.old.recovery self.new.recovery regs.old regs.new result }
        ensures uses { Uses L.keeps L.fits L.state link.old link.new result }
        ensures requests { self.new.requests ≡ requests_after result self.old.requests }
        ensures sound { IsSound self.new.requests }
        ensures at { IsAt self.old.recovery regs.old → IsAt self.new.recovery regs.new }
        ensures over { IsAt self.old.recovery regs.old → result ≡ Over → IsOver regs.new }
    {
        let step = self.recovery.event(regs, link);
        if let Step::Over = step {
            self.requests.give_back();
        }
        self.stays_sound();
        step
    }

    // Collects the completed requests.
    fn collect(&mut self, regs: &mut Regs) -> Act
        ensures act { result ≡ Collected regs.old.completed }
        ensures driver { self.new ≡ with_requests self.old (collected self.old.requests regs.old.completed) }
        ensures sound { IsSound self.new.requests }
        ensures regs { regs.new ≡ acknowledged regs.old }
    {
        let mask = acknowledge(regs);
        self.requests.collect(mask);
        self.stays_sound();
        Act::Collected { mask }
    }

    // Answers for a stop, and begins a recovery.
    fn fail<L: Link>(&mut self, regs: &mut Regs, cause: Option<Cause>, link: &mut L) -> Act
        requires fits { L.fits link.old }
        requires calm { self.old.recovery ≡ Calm }
        ensures link { link.new ≡ link.old }
        ensures uses { Uses L.keeps L.fits L.state link.old link.new Moved }
        ensures act { result ≡ (judged self.old.requests cause).act }
        ensures driver { self.new ≡ record { requests = (judged self.old.requests cause).requests; recovery = Halted } }
        ensures sound { IsSound self.new.requests }
        ensures regs { regs.new ≡ halted regs.old }
        ensures at { IsAt Halted regs.new }
    {
        let act = judge(&mut self.requests, cause);
        let _ = self.recovery.event(regs, link);
        self.stays_sound();
        act
    }

    // Issues the next request, if there is one.
    fn issue(&mut self, regs: &mut Regs, mem: &mut HostMem) -> Act
        requires layout { HasLayout mem.old (layout_of self.old.requests.plan) }
        ensures told { result ≡ told_of (due_of self.old.requests) }
        ensures driver { self.new ≡ with_requests self.old (issued_if self.old.requests (due_of self.old.requests)) }
        ensures sound { IsSound self.new.requests }
        ensures regs { regs.new ≡ rung_for regs.old (due_of self.old.requests) }
        ensures written { WritesFor self.old.requests.plan mem.old mem.new (due_of self.old.requests) }
        ensures layout { HasLayout mem.new (layout_of self.new.requests.plan) }
    {
        match self.requests.issue() {
            Ok(due) => {
                self.write_job(mem, due);
                ring(regs, due.tag);
                self.stays_sound();
                Act::Issued {
                    id: due.id,
                    tag: due.tag,
                }
            }
            Err(_) => {
                self.stays_sound();
                Act::Nothing
            }
        }
    }

    // However the requests stand, each stands in one way only.
    fn stays_sound(&self)
        ensures { IsSound self.now.requests }
    {
        let _ = self.requests.plan();
    }

    // Writes the descriptors and the data of a request.
    fn write_job(&self, mem: &mut HostMem, due: Due)
        requires layout { HasLayout mem.old (layout_of self.now.requests.plan) }
        requires fits { IsFitting self.now.requests.plan due }
        ensures layout { HasLayout mem.new (layout_of self.now.requests.plan) }
        ensures written { IsWritten self.now.requests.plan due mem.old mem.new }
    {
        let plan = self.requests.plan();
        let job = self.requests.job(due.id);
        let int = asks_notice(plan, &job);
        self.layout().write_job(mem, due.tag, &job, plan, int);
    }
}

// Whether a job asks for a notice at once.
fn asks_notice(plan: &Plan, job: &Job) -> bool
    ensures { result ≡ asks_notice plan.now job.now }
{
    plan.coalesce == 0 || is_direct(job)
}

// Clears the completion notification and the task notice, and answers which tasks were notified as complete.
fn acknowledge(regs: &mut Regs) -> u32
    ensures mask { result ≡ regs.old.completed }
    ensures after { regs.new ≡ acknowledged regs.old }
{
    let mask = regs.value(Register::CompletionNotification);
    let _ = regs.write(COMPLETION_NOTIFICATION, mask);
    let _ = regs.write(INTERRUPT_STATUS, NOTICE);
    mask
}

// Rings the doorbell of a tag.
fn ring(regs: &mut Regs, tag: u8)
    requires { tag < 32 }
    ensures { regs.new ≡ belled regs.old (2 ^ tag) }
{
    let _ = regs.write(DOORBELL, 1 << tag);
}
