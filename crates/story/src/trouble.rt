use composing::fault::ComposeFault;
use rules::refusal::SettingRefusal;
use std::alloc::AllocError;
use std::io;
use table_format::fault::TableFault;
use thiserror::Error;

// What can keep the story from being told to its end.
#[derive(Debug, Drop, Error)]
pub enum Trouble {
    #[error("a setting is refused with {}", .0.number())]
    Setting(#[from] SettingRefusal),
    #[error("a table is refused with {}", .0.number())]
    Table(#[from] TableFault),
    #[error("composing is refused with {}", .0.number())]
    Composing(#[from] ComposeFault),
    #[error("no memory")]
    Memory(#[from] AllocError),
    #[error("no output")]
    Output(#[from] io::Error),
}
