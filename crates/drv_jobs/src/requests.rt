ghost use Rattle.std.specs.Prelude.{◌≡◌, ◌<◌, ◌≤◌, IfOk, IfSome, count_by, is_some, length};
ghost use Rattle.storage_model.specs.Plan.{IsValidJob, IsValidPlan};
ghost use Rattle.drv_jobs.specs.Changes.{answered, collected, faulted, faults_of, forgotten, given_back, issued, issued_if};
ghost use Rattle.drv_jobs.specs.Next.{IsFitting, due_of, tag_for};
ghost use Rattle.drv_jobs.specs.Standings.{Standings, all_waiting, holder_of, job_of};

use crate::counts::{take_first, wait_all};
use crate::holders::{
    Holders, count_issued, free_all, free_tag, free_tags, holder_of, is_any_issued, no_holders,
    use_tag,
};
use crate::next::{DIRECT_TAG, Due, Hold};
use drv_tags::Tags;
use std::alloc::Global;
use std::marker::Model;
use storage_model::{Job, NoMemory, Plan, is_direct};

/// The number of faults of the bus that ends a request.
pub const MOST_FAULTS: u8 = 4;

/// The requests of a plan, numbered from 1: which wait, which tag each of the others is issued with, and how often a fault of
/// the bus named each. One that neither waits nor has a tag is answered.
#[derive(Debug, Drop)]
pub struct Requests {
    plan: Plan,
    waiting: Vec<bool>,
    holders: Holders,
    /// Counted up to `MOST_FAULTS`.
    faults: Vec<u8>,
    tags: Tags,
    /// The place of the lowest waiting request, or the number of requests.
    first: usize,
    /// How many wait.
    count: u32,
}

impl Model for Requests {
    ghost use Rattle.drv_jobs.specs.Standings.{Standings};
    ghost use Rattle.drv_jobs.specs.Sound.{Agrees};

    ghost Value = { Standings };

    ghost view = { λ it. record {
      plan = it.plan;
      waiting = it.waiting.items;
      holders = it.holders;
      faults = it.faults.items;
    } };

    ghost invariant = { λ it. Agrees (record { plan = it.plan; waiting = it.waiting.items; holders = it.holders; faults = it.faults.items }) it.tags it.first it.count };
}

impl Requests {
    ghost use Rattle.drv_jobs.specs.Sound.{IsSound};

    /// All requests of a plan wait. It takes all its memory here.
    ///
    /// # Errors
    ///
    /// `NoMemory` where the allocator has none.
    pub fn start(alloc: Global, plan: Plan) -> Result<Requests, NoMemory>
        requires { IsValidPlan plan }
        ensures { IfOk result (λ requests. requests ≡ all_waiting plan) }
    {
        let waiting = vec![in alloc; true; plan.jobs.len()]?;
        let faults = vec![in alloc; 0u8; plan.jobs.len()]?;
        let tags = Tags::new(plan.depth);
        let count = plan.jobs.len() as u32;
        Ok(Requests {
            plan,
            waiting,
            holders: no_holders(),
            faults,
            tags,
            first: 0,
            count,
        })
    }

    /// The plan. It is valid, and each request stands in one way only.
    pub fn plan(&self) -> &Plan
        ensures plan { result.now ≡ self.now.plan }
        ensures sound { IsSound self.now }
    {
        &self.plan
    }

    /// The request that a tag is issued for. None where the tag is not issued.
    pub fn holder(&self, tag: u8) -> Option<u32>
        ensures value { result ≡ holder_of self.now.holders tag }
        ensures tag { IfSome result (λ id. tag < 32) }
        ensures id { IfSome result (λ id. (1 ≤ id) × (id ≤ length self.now.plan.jobs)) }
    {
        holder_of(&self.holders, tag)
    }

    /// How many requests wait.
    pub fn waiting(&self) -> u32
        ensures { result ≡ count_by (λ waits. waits) self.now.waiting }
    {
        self.count
    }

    /// How many requests are issued and not answered.
    pub fn issued(&self) -> u32
        ensures { result ≡ count_by is_some self.now.holders }
    {
        count_issued(&self.holders)
    }

    /// The job of a request.
    pub fn job(&self, id: u32) -> Job
        requires { (1 ≤ id) × (id ≤ length self.now.plan.jobs) }
        ensures job { result ≡ job_of self.now.plan id }
        ensures valid { IsValidJob self.now.plan.blocks result }
    {
        *self.plan.jobs.at(id as usize - 1)
    }

    /// The waiting request with the lowest number, and its tag: that of direct requests, or the lowest that is not used.
    ///
    /// # Errors
    ///
    /// - `Done` where none waits.
    /// - `Behind` where it is direct and any request is issued, or a direct one is.
    /// - `Full` where all tags are used.
    pub fn due(&self) -> Result<Due, Hold>
        ensures { result ≡ due_of self.now }
    {
        if self.first == self.waiting.len() {
            return Err(Hold::Done);
        }
        let tag = self.tag_for(self.plan.jobs.at(self.first))?;
        Ok(Due {
            id: self.first as u32 + 1,
            tag,
        })
    }

    // The tag for a job.
    fn tag_for(&self, job: &Job) -> Result<u8, Hold>
        ensures { result ≡ tag_for self.now job.now }
    {
        if is_direct(job) {
            if is_any_issued(&self.holders) {
                return Err(Hold::Behind);
            }
            return Ok(DIRECT_TAG);
        }
        if holder_of(&self.holders, DIRECT_TAG).is_some() {
            return Err(Hold::Behind);
        }
        self.tags.peek().ok_or(Hold::Full)
    }

    /// Issues the request that `due` tells of.
    ///
    /// # Errors
    ///
    /// As `due`. Nothing has changed then.
    pub fn issue(&mut self) -> Result<Due, Hold>
        ensures due { result ≡ due_of self.old }
        ensures fits { IfOk result (IsFitting self.old.plan) }
        ensures after { self.new ≡ issued_if self.old result }
    {
        let due = self.due()?;
        use_tag(&mut self.holders, &mut self.tags, due);
        take_first(&mut self.waiting, &mut self.first, &mut self.count);
        Ok(due)
    }

    /// Answers the request of a tag, which is then free.
    pub fn answer(&mut self, tag: u8)
        requires { tag < 32 }
        ensures { self.new ≡ answered self.old tag }
    {
        free_tag(&mut self.holders, &mut self.tags, tag);
    }

    /// Answers the requests of the tags of a word, which are then free.
    pub fn collect(&mut self, word: u32)
        ensures { self.new ≡ collected self.old word }
    {
        free_tags(&mut self.holders, &mut self.tags, word);
    }

    /// Counts a fault of the bus that named a request, and answers their number.
    pub fn note_fault(&mut self, id: u32) -> u8
        requires { (1 ≤ id) × (id ≤ length self.old.plan.jobs) }
        ensures after { self.new ≡ faulted self.old id }
        ensures number { result ≡ faults_of self.new id }
    {
        let place = id as usize - 1;
        let number = MOST_FAULTS.min(self.faults[place].saturating_add(1));
        self.faults[place] = number;
        number
    }

    /// Each issued request waits again, and all tags are free.
    pub fn give_back(&mut self)
        ensures { self.new ≡ given_back self.old }
    {
        wait_all(
            &mut self.waiting,
            &mut self.first,
            &mut self.count,
            &self.holders,
        );
        free_all(&mut self.holders, &mut self.tags, self.plan.depth);
    }

    /// Each issued request is answered, and all tags are free.
    pub fn forget(&mut self)
        ensures { self.new ≡ forgotten self.old }
    {
        free_all(&mut self.holders, &mut self.tags, self.plan.depth);
    }
}
