//! Finished loads, and loads that gave a token.
ghost use Rattle.std.specs.Prelude.{◌≡◌, ◌<◌, ◌++◌, ◌∷◌, [], None, Option, Some, IfOk, vec_len, vec_capacity};
ghost use Rattle.cfg_token.specs.Histories.{token_of, finished_by, load_made, IsLoad};

use crate::file_token::FileToken;
use crate::loading::Loaded;
use cfg_types::{Instant, OutOfMemory, Shared, TryCopy};
use cfg_world::Receipt;
use std::alloc::Global;
use std::marker::Model;

/// A finished load: what it was told, what it gave, and the reading at which it noted an attempt. A
/// copy shares all of it with its source.
#[derive(Drop)]
pub struct Record<T: FileToken> {
    finished: Shared<Finished<T>>,
}

// What one record and its copies share.
#[derive(Drop)]
struct Finished<T: FileToken> {
    receipts: Vec<Receipt>,
    outcome: Result<T, T::Error>,
    noted: Option<Instant>,
}

impl<T: FileToken> Model for Record<T> {
    ghost use Rattle.cfg_token.specs.Histories.{FinishedLoad};

    ghost Value = { FinishedLoad T T.Error };

    ghost view = { λ r. record { receipts = r.finished.receipts.items; outcome = r.finished.outcome; noted = r.finished.noted } };
}

impl<T: FileToken> Record<T> {
    /// What was asked, with the answers, in order.
    pub fn receipts(&self) -> &[Receipt]
        ensures { result.now ≡ self.now.receipts }
    {
        self.finished.get().receipts.as_slice()
    }

    /// The token that the load gave, or why it gave none.
    pub fn outcome(&self) -> &Result<T, T::Error>
        ensures { result.now ≡ self.now.outcome }
    {
        &self.finished.get().outcome
    }

    /// The reading of the clock at which the load noted an attempt, or none where it noted none.
    pub fn noted(&self) -> Option<Instant>
        ensures { result ≡ self.now.noted }
    {
        self.finished.get().noted
    }

    fn copy(&self, alloc: Global) -> Result<Record<T>, OutOfMemory>
        ensures { IfOk result (λ r. r ≡ self.now) }
    {
        let finished = self.finished.copy(alloc)?;
        Ok(Record { finished })
    }
}

pub(crate) fn copy_receipts(
    alloc: Global,
    receipts: &[Receipt],
) -> Result<Vec<Receipt>, OutOfMemory>
    ensures { IfOk result (λ r. r.items ≡ receipts.now) }
{
    let mut copies = Vec::with_capacity(alloc, receipts.len())?;
    for receipt in receipts {
        copies.push(receipt.copy(alloc)?)?;
    }
    Ok(copies)
}

/// A copy of what a load gave.
pub(crate) fn copy_outcome<T: FileToken>(
    alloc: Global,
    outcome: &Result<T, T::Error>,
) -> Result<Result<T, T::Error>, OutOfMemory>
    ensures { IfOk result (λ o. o ≡ outcome.now) }
{
    match outcome {
        Ok(token) => Ok(Ok(token.copy(alloc)?)),
        Err(error) => Ok(Err(error.copy(alloc)?)),
    }
}

/// A load that gave a token, and the last attempt before it.
#[derive(Drop)]
pub struct Load<T: FileToken> {
    loaded_by: Record<T>,
    before: Option<Instant>,
}

impl<T: FileToken> Model for Load<T> {
    ghost use Rattle.cfg_token.specs.Histories.{TokenLoad, IsTokenLoad};

    ghost Value = { TokenLoad T T.Error };

    ghost view = { λ l. record { loaded_by = l.loaded_by; before = l.before } };

    ghost invariant = { λ l. IsTokenLoad T.rules (record { loaded_by = l.loaded_by; before = l.before }) };
}

impl<T: FileToken> Load<T> {
    ghost use Rattle.cfg_token.specs.Histories.{IsTokenLoad};

    /// The record of the load that gave the token. It is one from nothing kept.
    pub fn loaded_by(&self) -> &Record<T>
        ensures is { result.now ≡ self.now.loaded_by }
        ensures loaded { IsTokenLoad T.rules self.now }
    {
        &self.loaded_by
    }

    /// The reading of the last attempt that was noted before this load, if any was.
    pub fn before(&self) -> Option<Instant>
        ensures { result ≡ self.now.before }
    {
        self.before
    }

    /// The token that the load gave.
    pub fn token(&self) -> &T
        ensures { Some result.now ≡ token_of self.now }
    {
        match self.loaded_by.outcome() {
            Ok(token) => token,
            Err(_) => unreachable!(),
        }
    }

    /// A copy of the load, which shares its record. `OutOfMemory` where memory runs out.
    pub fn copy(&self, alloc: Global) -> Result<Load<T>, OutOfMemory>
        ensures { IfOk result (λ l. l ≡ self.now) }
    {
        let loaded_by = self.loaded_by.copy(alloc)?;
        Ok(Load {
            loaded_by,
            before: self.before,
        })
    }
}

// The record of a finished load.
pub(crate) fn finished_load<T: FileToken>(
    alloc: Global,
    loaded: &Loaded<T, T::Error>,
    receipts: Vec<Receipt>,
) -> Result<Record<T>, OutOfMemory>
    ensures { IfOk result (λ r. r ≡ finished_by receipts.items loaded.now) }
{
    let outcome = copy_outcome::<T>(alloc, &loaded.outcome)?;
    let finished = Finished {
        receipts,
        outcome,
        noted: loaded.noted,
    };
    Ok(Record {
        finished: Shared::new(alloc, finished)?,
    })
}

// One record more. Its place was taken before.
pub(crate) fn put_in_place<T: FileToken>(records: &mut Vec<Record<T>>, finished: Record<T>)
    requires { vec_len records.old < vec_capacity records.old }
    ensures { records.new.items ≡ records.old.items ++ finished ∷ [] }
{
    records.push(finished).unwrap();
}

// The load of a record that has a token.
pub(crate) fn token_load<T: FileToken>(
    loaded_by: Record<T>,
    before: Option<Instant>,
) -> Option<Load<T>>
    requires { IsLoad T.rules None before loaded_by }
    ensures { result ≡ load_made before loaded_by loaded_by.outcome }
{
    match loaded_by.outcome() {
        Ok(_) => Some(Load { loaded_by, before }),
        Err(_) => None,
    }
}

// A copy of the load of a record, if that has a token.
pub(crate) fn copied_load<T: FileToken>(
    alloc: Global,
    loaded_by: &Record<T>,
    before: Option<Instant>,
) -> Result<Option<Load<T>>, OutOfMemory>
    requires { IsLoad T.rules None before loaded_by.now }
    ensures { IfOk result (λ l. l ≡ load_made before loaded_by.now loaded_by.now.outcome) }
{
    match loaded_by.outcome() {
        Ok(_) => {
            let loaded_by = loaded_by.copy(alloc)?;
            Ok(Some(Load { loaded_by, before }))
        }
        Err(_) => Ok(None),
    }
}

/// A copy of the load that gave a token, none of none.
pub(crate) fn copy_load<T: FileToken>(
    alloc: Global,
    load: &Option<Load<T>>,
) -> Result<Option<Load<T>>, OutOfMemory>
    ensures { IfOk result (λ l. l ≡ load.now) }
{
    match load {
        Some(load) => {
            let load = load.copy(alloc)?;
            Ok(Some(load))
        }
        None => Ok(None),
    }
}

/// A copy of these records.
pub(crate) fn copy_records<T: FileToken>(
    alloc: Global,
    records: &Vec<Record<T>>,
) -> Result<Vec<Record<T>>, OutOfMemory>
    ensures { IfOk result (λ r. r.items ≡ records.now.items) }
{
    let mut copies = Vec::with_capacity(alloc, records.len())?;
    for finished in records {
        copies.push(finished.copy(alloc)?)?;
    }
    Ok(copies)
}
