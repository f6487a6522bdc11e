// The four-byte codes of the format. Numbers and no enum, since a file may hold any other and what is read is compared as it stands.
#![tactic(auto)]

// The boxes of rule 3, and `mdat`.
pub const FTYP: usize = 0x66747970;

pub const MOOV: usize = 0x6D6F6F76;

pub const MVHD: usize = 0x6D766864;

pub const TRAK: usize = 0x7472616B;

pub const TKHD: usize = 0x746B6864;

pub const MDIA: usize = 0x6D646961;

pub const MDHD: usize = 0x6D646864;

pub const HDLR: usize = 0x68646C72;

pub const MINF: usize = 0x6D696E66;

pub const SMHD: usize = 0x736D6864;

pub const DINF: usize = 0x64696E66;

pub const DREF: usize = 0x64726566;

pub const STBL: usize = 0x7374626C;

pub const STSD: usize = 0x73747364;

pub const STTS: usize = 0x73747473;

pub const STSC: usize = 0x73747363;

pub const STSZ: usize = 0x7374737A;

pub const STCO: usize = 0x7374636F;

pub const MDAT: usize = 0x6D646174;

// The one kind of data reference.
pub const URL: usize = 0x75726C20;

// The kinds of sample entry that have a rule of their own.
pub const MP4V: usize = 0x6D703476;

pub const MP4A: usize = 0x6D703461;

pub const SAMR: usize = 0x73616D72;

pub const SAWB: usize = 0x73617762;

pub const S263: usize = 0x73323633;

pub const AVC1: usize = 0x61766331;

// What stands in them.
pub const ESDS: usize = 0x65736473;

pub const DAMR: usize = 0x64616D72;

pub const D263: usize = 0x64323633;

pub const BITR: usize = 0x62697472;

pub const AVCC: usize = 0x61766343;

// Handlers.
pub const VIDE: usize = 0x76696465;

pub const SOUN: usize = 0x736F756E;

pub const TEXT: usize = 0x74657874;

// Brands.
pub const ISOM: usize = 0x69736F6D;

pub const GP4: usize = 0x33677034;

pub const GP5: usize = 0x33677035;

pub const GP6: usize = 0x33677036;

pub const GR6: usize = 0x33677236;

// User data.
pub const UDTA: usize = 0x75647461;

// Boxes of files that no edit takes.
pub const MOOF: usize = 0x6D6F6F66;

pub const MFRA: usize = 0x6D667261;

pub const SIDX: usize = 0x73696478;

pub const META: usize = 0x6D657461;

pub const CO64: usize = 0x636F3634;

pub const SAIO: usize = 0x7361696F;
