// A file as the WAVE file that it stands for.
ghost use Rattle.std.specs.Prelude.{◌≡◌, ◌+◌, ◌<◌, ◌≤◌, length, option_map, take, slice_range, Ok, Err, IfOk, IfSome, IfErr, OnErr, IsOkUnless};
ghost use Rattle.song_files.specs.Source.{Grows, Keeps};
ghost use Rattle.wave_pcm.specs.WaveError.{Fails};
ghost use Rattle.as_wave.specs.Faults.{all_faults, none_yet};
ghost use Rattle.as_wave.specs.Form.{stood_for, FormFits, IsReady};
ghost use Rattle.as_wave.specs.FlacLayout.{flac_planned, FlacFits};
ghost use Rattle.as_wave.specs.FlacWave.{flac_wave};
ghost use Rattle.as_wave.specs.Forms.{as_wave, taken, IsPlain};
ghost use Rattle.as_wave.specs.StandsFor.{converted};
ghost use Rattle.as_wave.specs.Plan.{planned, Fits};

use crate::Forms;
use crate::flac_layout::FlacForm;
use crate::flac_plan::flac_form;
use crate::flac_read::read_flac;
use crate::form::Form;
use crate::head::{HEAD_LEN, wave_head};
use crate::pick::plan;
use crate::pieces::{chunk_with, copy_from, read_chunk, read_sound};
use crate::plan::PcmPlan;
use flac::FlacError;
use song_files::{Source, SourceFault};
use std::alloc::Global;
use wave_pcm::WaveError;

/// A file as the WAVE file of 16-bit PCM that it stands for; one that stands for none is what it is.
#[derive(Drop)]
pub struct WaveSource<S> {
    source: S,
    form: Form,
    /// How often a frame could not be decoded, up to 2^64-1.
    undecoded: u64,
}

/// Reads from what the plan lays out, from the byte `at` of it on.
fn read_planned<S: Source>(
    plan: &PcmPlan,
    source: &mut S,
    at: u64,
    buffer: &mut [u8],
) -> Result<usize, SourceFault>
    ensures count { IfOk result (λ n. n ≤ length buffer.old) }
    ensures read { S.honest source.old → Fits plan.now (S.bytes source.old) →
        IfOk result (λ n. take n buffer.new ≡ slice_range (planned plan.now (S.bytes source.old)) at (at + n)) }
    ensures failed { S.honest source.old → Fits plan.now (S.bytes source.old) →
        OnErr result (Grows (S.faults source.old) (S.faults source.new)) }
    ensures no_byte { S.honest source.old → Fits plan.now (S.bytes source.old) →
        result ≡ Ok 0 → 0 < length buffer.old → at < length (planned plan.now (S.bytes source.old)) →
        Grows (S.faults source.old) (S.faults source.new) }
    ensures kept { S.honest source.old → Keeps S.bytes S.honest S.faults S.steady source.old source.new }
{
    if at < HEAD_LEN {
        let head = wave_head(plan.format, 2 * plan.count, plan.rest);
        return Ok(copy_from(&head, at, buffer));
    }
    let place = at - HEAD_LEN;
    let sound_len = 2 * plan.count;
    if place < sound_len {
        return read_sound(
            source,
            plan.format.width,
            plan.first,
            plan.count,
            place,
            buffer,
        );
    }
    match chunk_with(&plan.kept, place - sound_len) {
        Some((head, inside)) => read_chunk(source, head, inside, buffer),
        None => Ok(0),
    }
}

/// The plan of a file of PCM, if that form is taken.
fn pcm_plan<S: Source>(
    alloc: Global,
    source: &mut S,
    is_taken: bool,
) -> Result<Option<PcmPlan>, WaveError>
    ensures plan { S.honest source.old → IfOk result (λ plan.
        taken is_taken (converted (S.bytes source.old)) ≡ option_map (λ p. planned p (S.bytes source.old)) plan) }
    ensures fits { S.honest source.old → IfOk result (λ plan. IfSome plan (λ p. Fits p (S.bytes source.old))) }
    ensures fault { S.honest source.old → IfErr result (Fails (Grows (S.faults source.old) (S.faults source.new))) }
    ensures kept { S.honest source.old → Keeps S.bytes S.honest S.faults S.steady source.old source.new }
{
    if !is_taken {
        return Ok(None);
    }
    plan(alloc, source)
}

/// The form of a FLAC file, if that is taken.
fn flac_plan<S: Source>(
    alloc: Global,
    source: &mut S,
    is_taken: bool,
) -> Result<Option<FlacForm>, WaveError>
    ensures form { S.honest source.old → IfOk result (λ form.
        taken is_taken (flac_wave (S.bytes source.old)) ≡ option_map (λ f. flac_planned f (S.bytes source.old)) form) }
    ensures fits { S.honest source.old → IfOk result (λ form. IfSome form (λ f. FlacFits f (S.bytes source.old))) }
    ensures fault { S.honest source.old → IfErr result (Fails (Grows (S.faults source.old) (S.faults source.new))) }
    ensures kept { S.honest source.old → Keeps S.bytes S.honest S.faults S.steady source.old source.new }
{
    if !is_taken {
        return Ok(None);
    }
    flac_form(alloc, source)
}

/// What the file is by the forms that are taken.
fn form_of<S: Source>(alloc: Global, source: &mut S, forms: Forms) -> Result<Form, WaveError>
    ensures form { S.honest source.old → IfOk result (λ form. stood_for form (S.bytes source.old) ≡ as_wave forms (S.bytes source.old)) }
    ensures fits { S.honest source.old → IfOk result (λ form. FormFits form (S.bytes source.old)) }
    ensures ready { S.honest source.old → IsPlain forms (S.bytes source.old) → IfOk result IsReady }
    ensures fault { S.honest source.old → IfErr result (Fails (Grows (S.faults source.old) (S.faults source.new))) }
    ensures kept { S.honest source.old → Keeps S.bytes S.honest S.faults S.steady source.old source.new }
{
    if let Some(plan) = pcm_plan(alloc, source, forms.wave_pcm)? {
        return Ok(Form::Pcm(plan));
    }
    if let Some(form) = flac_plan(alloc, source, forms.flac)? {
        return Ok(Form::Flac(form));
    }
    Ok(Form::Plain)
}

impl<S: Source + Drop> WaveSource<S> {
    /// The file as what it stands for by the forms that are taken.
    ///
    /// `ReadFault` and `NoMemory` say nothing about the file, and there is no other error.
    pub fn new(alloc: Global, mut source: S, forms: Forms) -> Result<Self, WaveError>
        ensures bytes { S.honest source → IfOk result (λ file. ⟦<WaveSource<S> as Source>⟧.bytes file ≡ as_wave forms (S.bytes source)) }
        ensures honest { S.honest source → IfOk result (λ file. ⟦<WaveSource<S> as Source>⟧.honest file) }
        ensures steady { S.honest source → S.steady source → IsPlain forms (S.bytes source) →
            IfOk result (λ file. ⟦<WaveSource<S> as Source>⟧.steady file) }
        ensures failed { S.honest source → S.steady source → IsOkUnless result WaveError.NoMemory }
    {
        let form = form_of(alloc, &mut source, forms)?;
        Ok(WaveSource {
            source,
            form,
            undecoded: 0,
        })
    }
}

impl<S: Source> Source for WaveSource<S> {
    ghost bytes = { λ s. stood_for s.form (S.bytes s.source) };

    ghost honest = { λ s. S.honest s.source × FormFits s.form (S.bytes s.source) };

    ghost faults = { λ s. all_faults (S.faults s.source) s.undecoded };

    ghost steady = { λ s. S.steady s.source × IsReady s.form × (s.undecoded ≡ 0) };

    ghost none_failed = { λ s steady. none_yet _ _ (S.none_failed s.source steady.0) steady.2 };

    fn len(&self) -> u64 {
        match &self.form {
            Form::Plain => self.source.len(),
            Form::Pcm(plan) => HEAD_LEN + 2 * plan.count + plan.rest,
            Form::Flac(form) => HEAD_LEN + 2 * form.layout.count + form.layout.tail.len(),
        }
    }

    fn read_at(&mut self, at: u64, buffer: &mut [u8]) -> Result<usize, SourceFault> {
        let read = match &mut self.form {
            Form::Plain => return self.source.read_at(at, buffer),
            Form::Pcm(plan) => return read_planned(plan, &mut self.source, at, buffer),
            Form::Flac(form) => {
                read_flac(&form.layout, &mut form.reader, &mut self.source, at, buffer)
            }
        };
        match read {
            Ok(count) => Ok(count),
            Err(FlacError::ReadFault) => Err(SourceFault),
            Err(_) => {
                self.undecoded = self.undecoded.saturating_add(1);
                Err(SourceFault)
            }
        }
    }
}
