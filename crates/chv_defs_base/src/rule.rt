// The names of refusals.
ghost use Rattle.std.specs.Prelude.{◌≡◌};
ghost use Rattle.chv_defs_base.specs.Rules.{rule_name, rule_status};
ghost use Rattle.chv_defs_base.specs.Reasons.{reason_name};

/// The rule by which a request or a control call is refused.
#[derive(Clone, Copy, PartialEq, Eq)]
pub enum Rule {
    /// The head of a request is no HTTP head.
    BadHead,
    /// `Content-Length` is no number, or stands twice.
    BadLength,
    /// A body is longer than 65,536 bytes.
    BodyTooLong,
    /// The head has a `Transfer-Encoding`.
    Coded,
    /// No route has this method and target.
    NoRoute,
    /// The body is not JSON.
    NotJson,
    /// A needed key is absent.
    Missing,
    /// A value is no object.
    NotObject,
    /// A value is no list.
    NotList,
    /// A value is no text.
    NotText,
    /// A value is no whole number from 0 to 2^64 - 1.
    NotWhole,
    /// A value is neither `true` nor `false`.
    NotBool,
    /// The last component of a snapshot's URL is no name.
    BadName,
    /// There is no configuration.
    NotCreated,
    /// There is a configuration.
    AlreadyCreated,
    /// A pause, shutdown or delete is under way.
    Held,
    /// The machine is not booted.
    NotBooted,
    /// The machine is booted.
    AlreadyBooted,
    /// The machine does not run.
    NotRunning,
    /// The machine is not paused.
    NotPaused,
    /// `boot_vcpus` is 0.
    BootZero,
    /// `boot_vcpus` is above `max_vcpus`.
    BootAboveMax,
    /// `max_vcpus` is above 16.
    VcpusAboveLimit,
    /// There are zones, and the memory's own `size` is not 0.
    ZonesNeedSizeZero,
    /// There are zones, and the memory's own `hotplug_size` or `hotplugged_size` is not 0.
    ZonesOwnHotplug,
    /// There are no zones and `size` is 0, or a zone's `size` is 0.
    SizeZero,
    /// There are more than 8 zones.
    TooManyZones,
    /// A zone's id is no identifier of at most 24 bytes.
    ZoneIdBad,
    /// Two zones have one id.
    ZoneIdTwice,
    /// A `size`, `hotplug_size` or `hotplugged_size` is no multiple of 2 MiB.
    SizeUnaligned,
    /// `size` and `hotplug_size` of a zone sum above 64 GiB.
    ZoneTooLarge,
    /// A `hotplugged_size` is above its `hotplug_size`.
    HotpluggedAbove,
    /// A configured zone grows, and the method is Acpi.
    WayForZones,
    /// There are no zones, `hotplug_size` is above 0, and the method is Acpi.
    WayAcpi,
    /// No disk that stands by has the name of a configured one, or it has another number of sectors in a restore.
    DiskUnknown,
    /// Two disks have one name.
    DiskTwice,
    /// An id that a disk is given is no identifier.
    DeviceIdBad,
    /// Two devices have one id, memory devices included.
    DeviceIdTwice,
    /// `num_queues` is not 1, or `queue_size` is no power of two from 1 to 1,024.
    QueueShape,
    /// Growing zones and disks are more than 31.
    TooManyDevices,
    /// `desired_vcpus` is 0 or above `max_vcpus`.
    VcpuCount,
    /// `desired_vcpus` is given while a vCPU's removal is asked.
    RemovalPending,
    /// `desired_ram` is given for the whole machine, and there are configured zones.
    ByZone,
    /// No configured zone has that id.
    ZoneUnknown,
    /// `desired_ram` is outside the zone's range, or no multiple of 2 MiB.
    RamRange,
    /// No device has that id.
    DeviceUnknown,
    /// The device is a memory device, which is not removed.
    DeviceFixed,
    /// The device's removal was already asked.
    DeviceLeaving,
    /// The 31 slots are used, or would be at boot.
    SlotsFull,
    /// The store of snapshots failed in this call.
    VaultFault,
    /// There is no snapshot of that name.
    ImageMissing,
    /// The bytes are no image; the first byte of the field that fails.
    BadImage(u64),
    /// A call that no rule refuses, and that is not built yet.
    NotBuilt,
}

/// Why a line of a script, a scenario or a trace is refused.
#[derive(Clone, Copy, PartialEq, Eq)]
pub enum Reason {
    /// A line begins with no word of the format.
    UnknownWord,
    /// A line has too few fields or too many.
    FieldCount,
    /// A field is no register.
    BadRegister,
    /// A field is no width of an access.
    BadWidth,
    /// A field is no decimal number of its range.
    BadNumber,
    /// A field is no hexadecimal number of its range, or no pairs of hexadecimal digits.
    BadHex,
    /// A field is no label or name.
    BadName,
    /// No line of the section has that label.
    UnknownLabel,
    /// Two lines of a section have one label.
    LabelTwice,
    /// The text does not end in a line feed.
    Unended,
    /// Sections, vCPU numbers or disks are out of order, or stand twice.
    OutOfOrder,
    /// A limit on lines, sections or steps is passed.
    TooMany,
    /// A `session` section where connections are served.
    NotHere,
    /// A section without its `end`.
    Unclosed,
    /// A line that stands in no trace.
    BadTrace,
    /// A part of the format that is not read yet.
    NotBuilt,
}

impl Rule {
    /// The name, as replies and traces give it.
    pub fn name(self) -> &'static str
        ensures { result.now ≡ rule_name self }
    {
        match self {
            Rule::BadHead => "BadHead",
            Rule::BadLength => "BadLength",
            Rule::BodyTooLong => "BodyTooLong",
            Rule::Coded => "Coded",
            Rule::NoRoute => "NoRoute",
            Rule::NotJson => "NotJson",
            Rule::Missing => "Missing",
            Rule::NotObject => "NotObject",
            Rule::NotList => "NotList",
            Rule::NotText => "NotText",
            Rule::NotWhole => "NotWhole",
            Rule::NotBool => "NotBool",
            Rule::BadName => "BadName",
            Rule::NotCreated => "NotCreated",
            Rule::AlreadyCreated => "AlreadyCreated",
            Rule::Held => "Held",
            Rule::NotBooted => "NotBooted",
            Rule::AlreadyBooted => "AlreadyBooted",
            Rule::NotRunning => "NotRunning",
            Rule::NotPaused => "NotPaused",
            Rule::BootZero => "BootZero",
            Rule::BootAboveMax => "BootAboveMax",
            Rule::VcpusAboveLimit => "VcpusAboveLimit",
            Rule::ZonesNeedSizeZero => "ZonesNeedSizeZero",
            Rule::ZonesOwnHotplug => "ZonesOwnHotplug",
            Rule::SizeZero => "SizeZero",
            Rule::TooManyZones => "TooManyZones",
            Rule::ZoneIdBad => "ZoneIdBad",
            Rule::ZoneIdTwice => "ZoneIdTwice",
            Rule::SizeUnaligned => "SizeUnaligned",
            Rule::ZoneTooLarge => "ZoneTooLarge",
            Rule::HotpluggedAbove => "HotpluggedAbove",
            Rule::WayForZones => "WayForZones",
            Rule::WayAcpi => "WayAcpi",
            Rule::DiskUnknown => "DiskUnknown",
            Rule::DiskTwice => "DiskTwice",
            Rule::DeviceIdBad => "DeviceIdBad",
            Rule::DeviceIdTwice => "DeviceIdTwice",
            Rule::QueueShape => "QueueShape",
            Rule::TooManyDevices => "TooManyDevices",
            Rule::VcpuCount => "VcpuCount",
            Rule::RemovalPending => "RemovalPending",
            Rule::ByZone => "ByZone",
            Rule::ZoneUnknown => "ZoneUnknown",
            Rule::RamRange => "RamRange",
            Rule::DeviceUnknown => "DeviceUnknown",
            Rule::DeviceFixed => "DeviceFixed",
            Rule::DeviceLeaving => "DeviceLeaving",
            Rule::SlotsFull => "SlotsFull",
            Rule::VaultFault => "VaultFault",
            Rule::ImageMissing => "ImageMissing",
            Rule::BadImage(_) => "BadImage",
            Rule::NotBuilt => "NotBuilt",
        }
    }

    /// The HTTP status of a reply that names the rule.
    pub fn status(self) -> u16
        ensures { result ≡ rule_status self }
    {
        match self {
            Rule::NoRoute
            | Rule::NotCreated
            | Rule::ZoneUnknown
            | Rule::DeviceUnknown
            | Rule::ImageMissing => 404,
            Rule::AlreadyCreated
            | Rule::Held
            | Rule::NotBooted
            | Rule::AlreadyBooted
            | Rule::NotRunning
            | Rule::NotPaused
            | Rule::RemovalPending
            | Rule::DeviceLeaving
            | Rule::SlotsFull
            | Rule::VaultFault
            | Rule::NotBuilt => 500,
            _ => 400,
        }
    }
}

impl Reason {
    /// The name, as it is printed.
    pub fn name(self) -> &'static str
        ensures { result.now ≡ reason_name self }
    {
        match self {
            Reason::UnknownWord => "UnknownWord",
            Reason::FieldCount => "FieldCount",
            Reason::BadRegister => "BadRegister",
            Reason::BadWidth => "BadWidth",
            Reason::BadNumber => "BadNumber",
            Reason::BadHex => "BadHex",
            Reason::BadName => "BadName",
            Reason::UnknownLabel => "UnknownLabel",
            Reason::LabelTwice => "LabelTwice",
            Reason::Unended => "Unended",
            Reason::OutOfOrder => "OutOfOrder",
            Reason::TooMany => "TooMany",
            Reason::NotHere => "NotHere",
            Reason::Unclosed => "Unclosed",
            Reason::BadTrace => "BadTrace",
            Reason::NotBuilt => "NotBuilt",
        }
    }
}
