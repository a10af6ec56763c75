//! The keys of PEP 3333's environ that are the same for every request.

/// `wsgi.version`.
pub const WSGI_VERSION: (u8, u8) = (1, 0);

/// `wsgi.url_scheme`.
pub const WSGI_URL_SCHEME: &str = "http";

/// `wsgi.multithread`: whether another thread may call the application at the same time.
pub const WSGI_MULTITHREAD: bool = false;

/// `wsgi.multiprocess`: whether another process may call an application like it at the same time.
pub const WSGI_MULTIPROCESS: bool = false;

/// `wsgi.run_once`: whether the server expects to call the application only once.
pub const WSGI_RUN_ONCE: bool = false;
