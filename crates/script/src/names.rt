// The words of a script as numbers: the bytes of their letters, the first one highest. They stay numbers, and no enum, since `script::name` promises one of each word
// (`name_of`); what they ask for is an enum of the crate `commands`, which alone matches on them.

pub const SETUP: u64 = 0x7365747570;

pub const COUNT: u64 = 0x636f756e74;

pub const CLOCK: u64 = 0x636c6f636b;

pub const OFF: u64 = 0x6f6666;

pub const ON: u64 = 0x6f6e;

pub const ACCESS: u64 = 0x616363657373;

pub const METER: u64 = 0x6d65746572;

pub const RESET: u64 = 0x7265736574;

pub const RATE: u64 = 0x72617465;

pub const REVERSE: u64 = 0x72657665727365;

pub const PPP: u64 = 0x707070;

pub const ADJUST: u64 = 0x61646a757374;

pub const SINGLE: u64 = 0x73696e676c65;

pub const READ: u64 = 0x72656164;

pub const DAY: u64 = 0x646179;

pub const SHOW: u64 = 0x73686f77;

pub const BLOCK: u64 = 0x626c6f636b;

pub const HEX: u64 = 0x686578;

pub const BYTE: u64 = 0x62797465;

pub const CUT: u64 = 0x637574;

pub const CHECK: u64 = 0x636865636b;

pub const KEEP: u64 = 0x6b656570;

pub const TAKE: u64 = 0x74616b65;

pub const LISTING: u64 = 0x6c697374696e67;

pub const FIELDS: u64 = 0x6669656c6473;

pub const GIVEN: u64 = 0x676976656e;

pub const WRITE: u64 = 0x7772697465;

pub const OPEN: u64 = 0x6f70656e;

pub const FILE: u64 = 0x66696c65;

pub const DELIVER: u64 = 0x64656c69766572;

pub const SUMMARY: u64 = 0x73756d6d617279;

pub const MISSING: u64 = 0x6d697373696e67;

pub const LEDGER: u64 = 0x6c6564676572;

pub const LEND: u64 = 0x6c656e64;

pub const POKE: u64 = 0x706f6b65;

pub const CLASS: u64 = 0x636c617373;

pub const WEIGHT: u64 = 0x776569676874;

pub const TIME: u64 = 0x74696d65;

pub const POWER: u64 = 0x706f776572;

pub const DAYS: u64 = 0x64617973;

pub const TOTAL: u64 = 0x746f74616c;

pub const LAST: u64 = 0x6c617374;

pub const CURRENT: u64 = 0x63757272656e74;

pub const PREVIOUS: u64 = 0x70726576696f7573;

pub const SUMMED: u64 = 0x73756d6d6564;

pub const RESETS: u64 = 0x726573657473;

pub const BASE: u64 = 0x62617365;

pub const LEVEL2: u64 = 0x6c6576656c32;

pub const LETTER: u64 = 0x6c6574746572;

pub const REGISTER: u64 = 0x7265676973746572;

pub const VALUE: u64 = 0x76616c7565;

pub const START: u64 = 0x7374617274;

pub const MARK: u64 = 0x6d61726b;

pub const KWH: u64 = 0x6b7768;

pub const FLAGS: u64 = 0x666c616773;

pub const REVERSED: u64 = 0x7265766572736564;

// The tariff switching table's.

pub const BLANK: u64 = 0x626c616e6b;

pub const AT: u64 = 0x6174;

pub const EXCEPT: u64 = 0x657863657074;

pub const WEEKDAYS: u64 = 0x7765656b64617973;

pub const DEFAULT: u64 = 0x64656661756c74;

pub const SLOT: u64 = 0x736c6f74;

pub const SWAP: u64 = 0x73776170;

pub const LOAD: u64 = 0x6c6f6164;

pub const TABLE: u64 = 0x7461626c65;

pub const RATEAT: u64 = 0x726174656174;

pub const WEEK: u64 = 0x7765656b;

pub const LOADED: u64 = 0x6c6f61646564;
