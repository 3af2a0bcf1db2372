ghost use Rattle.std.specs.Prelude.{◌≡◌};
ghost use Rattle.machine.specs.Settings.{fresh_settings, set, setting_of};

use codes::{NetworkMode, Parameter};
use matcher::SecurityLevel;

/// The values of the parameter Enroll Mode: how many fingers and templates an enrolment takes.
#[derive(Clone, Copy, PartialEq, Eq, Debug)]
pub enum EnrollMode {
    /// One finger, one template.
    Once = 0x30,
    /// Two fingers, of which the better becomes the template.
    Twice = 0x31,
    /// Two fingers, two templates.
    TwoTemplates = 0x41,
}

/// The values of the parameter Send Scan Success.
#[derive(Clone, Copy, PartialEq, Eq, Debug)]
pub enum Switch {
    Off = 0x30,
    On = 0x31,
}

/// The system parameters that can be written.
#[derive(Clone, Copy, PartialEq, Eq, Debug)]
pub struct Settings {
    /// How many seconds a finger is awaited; 0 means without end. The parameter's value is 0x30 more.
    pub timeout: u8,
    pub enroll: EnrollMode,
    pub security: SecurityLevel,
    /// Whether a good scan is answered before its outcome.
    pub scans: Switch,
    pub network: NetworkMode,
}

/// One of these parameters, with a value that it takes.
#[derive(Clone, Copy, PartialEq, Eq, Debug)]
pub enum Setting {
    Timeout(u8),
    Enroll(EnrollMode),
    Security(SecurityLevel),
    Scans(Switch),
    Network(NetworkMode),
}

impl Setting {
    /// The parameter with the value, if it takes that value.
    pub fn of(parameter: Parameter, value: u32) -> Option<Setting>
        ensures { result ≡ setting_of parameter value }
    {
        match (parameter, value) {
            (Parameter::Timeout, 0x30..=0x44) => Some(Setting::Timeout((value - 0x30) as u8)),
            (Parameter::EnrollMode, 0x30) => Some(Setting::Enroll(EnrollMode::Once)),
            (Parameter::EnrollMode, 0x31) => Some(Setting::Enroll(EnrollMode::Twice)),
            (Parameter::EnrollMode, 0x41) => Some(Setting::Enroll(EnrollMode::TwoTemplates)),
            (Parameter::SecurityLevel, code) if code <= 0xFF => {
                SecurityLevel::try_from(code as u8)
                    .ok()
                    .map(Setting::Security)
            }
            (Parameter::SendScanSuccess, 0x30) => Some(Setting::Scans(Switch::Off)),
            (Parameter::SendScanSuccess, 0x31) => Some(Setting::Scans(Switch::On)),
            (Parameter::NetworkMode, 0x30) => Some(Setting::Network(NetworkMode::Single)),
            (Parameter::NetworkMode, 0x31) => Some(Setting::Network(NetworkMode::Network)),
            _ => None,
        }
    }
}

impl Settings {
    /// A fresh module's parameters.
    pub fn fresh() -> Settings
        ensures { result ≡ fresh_settings }
    {
        Settings {
            timeout: 10,
            enroll: EnrollMode::TwoTemplates,
            security: SecurityLevel::OneIn100k,
            scans: Switch::On,
            network: NetworkMode::Single,
        }
    }

    /// Writes one parameter.
    pub fn set(&mut self, setting: Setting)
        ensures { self.new ≡ set self.old setting }
    {
        match setting {
            Setting::Timeout(seconds) => self.timeout = seconds,
            Setting::Enroll(mode) => self.enroll = mode,
            Setting::Security(level) => self.security = level,
            Setting::Scans(switch) => self.scans = switch,
            Setting::Network(mode) => self.network = mode,
        }
    }
}
