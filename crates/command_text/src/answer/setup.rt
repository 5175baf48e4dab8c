//! The lines of what the daemon is set up with (MPD protocol reference 0.23, "Audio output devices", "Partition commands").
ghost use Rattle.profile.specs.declared.profile.Profile.TheVariants.{Wide};
ghost use Rattle.command_text.specs.Answer.{Adds};
ghost use Rattle.command_text.specs.AnswerSetup.{decoder_lines, flac_lines, output_lines, partition_line};
ghost use Rattle.command_text.specs.AnswerSetup.{setup_lines, setup_status, wave_lines};

use crate::answer::pairs::write_pair;
use crate::command::setup::SetupCommand;
use no_memory::NoMemory;
use profile::Profile;

fn write_outputs(out: &mut Vec<u8>) -> Result<(), NoMemory>
    ensures { Adds output_lines result out.old out.new }
{
    write_pair(out, "outputid", b"0")?;
    write_pair(out, "outputname", b"output")?;
    write_pair(out, "plugin", b"raw")?;
    write_pair(out, "outputenabled", b"1")
}

fn write_wave(out: &mut Vec<u8>) -> Result<(), NoMemory>
    ensures { Adds wave_lines result out.old out.new }
{
    write_pair(out, "plugin", b"wave")?;
    write_pair(out, "suffix", b"wav")?;
    write_pair(out, "suffix", b"wave")?;
    write_pair(out, "mime_type", b"audio/wav")?;
    write_pair(out, "mime_type", b"audio/x-wav")?;
    write_pair(out, "mime_type", b"audio/wave")
}

fn write_flac(out: &mut Vec<u8>) -> Result<(), NoMemory>
    ensures { Adds flac_lines result out.old out.new }
{
    write_pair(out, "plugin", b"flac")?;
    write_pair(out, "suffix", b"flac")?;
    write_pair(out, "mime_type", b"audio/flac")?;
    write_pair(out, "mime_type", b"audio/x-flac")
}

fn write_decoders(out: &mut Vec<u8>) -> Result<(), NoMemory>
    ensures { Adds decoder_lines result out.old out.new }
{
    write_wave(out)?;
    write_flac(out)
}

fn write_partition(out: &mut Vec<u8>) -> Result<(), NoMemory>
    ensures { Adds partition_line result out.old out.new }
{
    write_pair(out, "partition", b"default")
}

/// Adds the lines of a command.
pub fn write_setup(out: &mut Vec<u8>, command: SetupCommand) -> Result<(), NoMemory>
    ensures { Adds (setup_lines command) result out.old out.new }
{
    match command {
        SetupCommand::BinaryLimit(_) => Ok(()),
        SetupCommand::Decoders => write_decoders(out),
        SetupCommand::Mounts => write_pair(out, "mount", b""),
        SetupCommand::Nothing => Ok(()),
        SetupCommand::Outputs => write_outputs(out),
        SetupCommand::Partitions => write_partition(out),
        SetupCommand::ReplayGain => write_pair(out, "replay_gain_mode", b"off"),
    }
}

/// Adds what `status` tells of it in the wide profile, behind its other lines.
pub fn write_setup_status(out: &mut Vec<u8>, profile: Profile) -> Result<(), NoMemory>
    ensures { Adds (setup_status profile) result out.old out.new }
{
    match profile {
        Profile::Named => Ok(()),
        Profile::Wide => write_wide_status(out),
    }
}

fn write_wide_status(out: &mut Vec<u8>) -> Result<(), NoMemory>
    ensures { Adds (setup_status Wide) result out.old out.new }
{
    write_partition(out)?;
    write_pair(out, "mixrampdb", b"0")
}
