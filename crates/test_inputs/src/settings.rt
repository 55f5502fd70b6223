//! The usual settings.
use ro_settings::Settings;

#[test]
fn usual(rt: HostRuntime) {
    assert_eq!(rt; Settings::default(), Settings::DEFAULT);
    assert!(rt; Settings::DEFAULT.is_in_range());
    let four = Settings {
        replicas: 4,
        ..Settings::DEFAULT
    };
    assert!(rt; !four.is_in_range());
}
